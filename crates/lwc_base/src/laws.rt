//! Laws of the definitions: functions with empty bodies, each with a contract that is the law.

pub mod apart;
pub mod capabilities;
pub mod channels;
pub mod cloning;
pub mod facts;
pub mod jobs;
pub mod life;
pub mod mapping;
pub mod modes;
pub mod overlaying;
pub mod ranges;
pub mod rights;
pub mod saved;
pub mod slots;
pub mod soundness;
pub mod storing;

pub use apart::{
    a_put_changes_one_key, what_is_apart_is_not_seen, what_is_apart_stays_apart,
    what_is_common_stays_common,
};
pub use capabilities::{
    a_capability_covers_what_it_has, a_restriction_adds_no_key, capabilities_are_sets_of_keys,
};
pub use channels::descriptors_stay_in_range;
pub use cloning::{
    a_group_is_needed_where_a_value_moves, a_new_group_has_what_has_moved,
    cloning_changes_no_value, only_what_is_shared_becomes_common, sharing_changes_no_value,
    what_is_copied_is_apart, what_is_left_out_is_not_there, what_is_shared_is_common,
};
pub use facts::{
    changes_leave_the_rest, live_names_are_counted, names_are_ordered, names_stay_old,
};
pub use jobs::{names_keep_to_their_jobs, only_jobs_with_a_root_are_reached};
pub use life::{
    a_reaped_world_keeps_what_is_reached, changes_that_cut_no_link_leave_nothing_to_drop,
    contexts_keep_the_contexts_that_they_name, reached_contexts_are_those_with_a_chain,
    what_is_dropped_is_named_by_nothing,
};
pub use mapping::a_mapped_page_reads_zeros;
pub use modes::an_item_gives_its_mode;
pub use overlaying::{an_overlay_changes_what_it_names, an_overlay_copies_or_shares};
pub use ranges::one_run_is_one_range;
pub use rights::{
    a_clone_has_rights_by_its_modes, a_page_that_is_mapped_may_be_stored_to,
    an_overlay_takes_rights_over, only_what_may_be_written_is_stored_to,
    rights_stay_with_their_context,
};
pub use saved::saving_changes_saved_registers_alone;
pub use slots::the_lowest_empty_slot_is_empty;
pub use soundness::sound_worlds_stay_sound;
pub use storing::{each_page_that_parts_takes_a_frame, what_is_stored_reads_back};
