ghost use Rattle.std.specs.Prelude.{◌≡◌, ◌^◌};
ghost use Rattle.lwc_types.specs.declared.limits.TheConstants.{MOST_BUDGET, MOST_BYTES_OF_CALL};
ghost use Rattle.lwc_types.specs.declared.limits.TheConstants.{MOST_BYTES_OF_FORM_ONE, PAGES_OF_FORM_ONE};
ghost use Rattle.lwc_types.specs.declared.limits.TheConstants.{MOST_CONSOLE_BYTES, MOST_CONTEXTS};
ghost use Rattle.lwc_types.specs.declared.limits.TheConstants.{MOST_CONTEXTS_OF_JOB, MOST_FILES};
ghost use Rattle.lwc_types.specs.declared.limits.TheConstants.{MOST_FILE_BYTES, MOST_FRAMES, MOST_GROUPS};
ghost use Rattle.lwc_types.specs.declared.limits.TheConstants.{MOST_GROUPS_OF_JOB, MOST_IMAGE_BYTES};
ghost use Rattle.lwc_types.specs.declared.limits.TheConstants.{MOST_IMAGE_SLOTS, MOST_INSTRUCTIONS};
ghost use Rattle.lwc_types.specs.declared.limits.TheConstants.{MOST_ITEMS, MOST_JOBS, MOST_PAGES, MOST_RANGES};
ghost use Rattle.lwc_types.specs.declared.limits.TheConstants.{MOST_KEPT_ROOTS, MOST_PAGE_PLACES};
ghost use Rattle.lwc_types.specs.declared.limits.TheConstants.{MOST_PAGE_RUNS, MOST_SLOT_PLACES};
ghost use Rattle.lwc_types.specs.declared.limits.TheConstants.{MOST_REPLY_BYTES, MOST_REQUESTS};
ghost use Rattle.lwc_types.specs.declared.limits.TheConstants.{MOST_REQUEST_BYTES, MOST_REQUEST_FILE_BYTES};
ghost use Rattle.lwc_types.specs.declared.limits.TheConstants.{MOST_ROOTS, MOST_SCHEDULE_BYTES};
ghost use Rattle.lwc_types.specs.declared.limits.TheConstants.{MOST_SOURCE_BYTES, MOST_STEPS, MOST_THREADS};
ghost use Rattle.guest_image.specs.declared.image.TheConstants.{FIRST_SLOT, MOST_VAULT_PAGES, VAULT_SLOT};
ghost use Rattle.kernel_core.specs.declared.calling.TheConstants.{LW_CREATE, LW_OVERLAY, LW_RESTRICT};
ghost use Rattle.kernel_core.specs.declared.calling.TheConstants.{LW_SWITCH, LW_SYSCALL};
ghost use Rattle.kernel_core.specs.declared.settings.Job.TheVariants.{Serve};
ghost use Rattle.lwc_types.specs.declared.key.TheConstants.{SLOTS};
ghost use Rattle.lwc_types.specs.declared.key.TheConstants.{NOBODY};
ghost use Rattle.lwc_types.specs.declared.page.TheConstants.{PAGE_BYTES};
ghost use Rattle.lwc_debug.specs.declared.command.TheConstants.{MOST_COMMANDS};
ghost use Rattle.lwc_debug.specs.declared.debugging.TheConstants.{MOST_DEBUGGED_STEPS};
ghost use Rattle.lwc_debug.specs.declared.script.TheConstants.{MOST_SCRIPT_BYTES};
ghost use Rattle.lwc_guard.specs.declared.numbers.TheConstants.{EXITED, HALTED, LW_FUEL, MOST_FUEL, NO_FUEL};
ghost use Rattle.lwc_monitor.specs.declared.numbers.TheConstants.{EXIT, LW_TRAP, NOT_FRESH, TRAPPED};
ghost use Rattle.lwc_text.specs.declared.vault.TheConstants.{MOST_VAULT_BYTES};
ghost use Rattle.res_spec.specs.declared.items.TheConstants.{ITEM_BYTES};
ghost use Rattle.lwc_gen.specs.declared.generating.TheConstants.{PAGES, REQUESTS_FOR_EACH, SETTINGS};

/// A law: the numbers behind the names that definitions use for limits, and for a generated serve. A
/// change of one of these constants changes what the program accepts or generates, and does not pass.
pub fn limits_are_as_documented()
    ensures pages { MOST_PAGES ≡ 16384 }
    ensures pages_of_form_one { PAGES_OF_FORM_ONE ≡ 1024 }
    ensures page_bytes { PAGE_BYTES ≡ 4096 }
    ensures slots { SLOTS ≡ 64 }
    ensures first_slot { FIRST_SLOT ≡ 2 }
    ensures image_slots { MOST_IMAGE_SLOTS ≡ 62 }
    ensures nobody { NOBODY ≡ 65534 }
    ensures ranges { MOST_RANGES ≡ 64 }
    ensures items { MOST_ITEMS ≡ 32 }
    ensures item_bytes { ITEM_BYTES ≡ 16 }
    ensures contexts_of_job { MOST_CONTEXTS_OF_JOB ≡ 32 }
    ensures groups_of_job { MOST_GROUPS_OF_JOB ≡ 64 }
    ensures contexts { MOST_CONTEXTS ≡ 529 }
    ensures groups { MOST_GROUPS ≡ 1024 }
    ensures jobs { MOST_JOBS ≡ 1025 }
    ensures frames { MOST_FRAMES ≡ 65536 }
    ensures threads { MOST_THREADS ≡ 16 }
    ensures roots { MOST_ROOTS ≡ 32 }
    ensures budget { MOST_BUDGET ≡ 100000 }
    ensures steps { MOST_STEPS ≡ 16000000 }
    ensures instructions { MOST_INSTRUCTIONS ≡ 65536 }
    ensures files { MOST_FILES ≡ 64 }
    ensures file_bytes { MOST_FILE_BYTES ≡ 2 ^ 20 }
    ensures image_bytes { MOST_IMAGE_BYTES ≡ 75497472 }
    ensures bytes_of_form_one { MOST_BYTES_OF_FORM_ONE ≡ 2 ^ 23 }
    ensures source_bytes { MOST_SOURCE_BYTES ≡ 167772160 }
    ensures bytes_of_call { MOST_BYTES_OF_CALL ≡ 4096 }
    ensures console_bytes { MOST_CONSOLE_BYTES ≡ 65536 }
    ensures reply_bytes { MOST_REPLY_BYTES ≡ 4096 }
    ensures request_file_bytes { MOST_REQUEST_FILE_BYTES ≡ 8390656 }
    ensures requests { MOST_REQUESTS ≡ 1024 }
    ensures request_bytes { MOST_REQUEST_BYTES ≡ 4096 }
    ensures schedule_bytes { MOST_SCHEDULE_BYTES ≡ 2 ^ 24 }
    ensures page_places { MOST_PAGE_PLACES ≡ 1980 }
    ensures slot_places { MOST_SLOT_PLACES ≡ 65536 }
    ensures page_runs { MOST_PAGE_RUNS ≡ 193 }
    ensures kept_roots { MOST_KEPT_ROOTS ≡ 64 }
    ensures create { LW_CREATE ≡ 16 }
    ensures switch { LW_SWITCH ≡ 17 }
    ensures restrict { LW_RESTRICT ≡ 18 }
    ensures overlay { LW_OVERLAY ≡ 19 }
    ensures syscall { LW_SYSCALL ≡ 20 }
    ensures trap { LW_TRAP ≡ 21 }
    ensures exit { EXIT ≡ 10 }
    ensures fuel { LW_FUEL ≡ 24 }
    ensures most_fuel { MOST_FUEL ≡ 100000 }
    ensures no_fuel { NO_FUEL ≡ 0 }
    ensures halted { HALTED ≡ 7 }
    ensures exited { EXITED ≡ 8 }
    ensures trapped { TRAPPED ≡ 22 }
    ensures not_fresh { NOT_FRESH ≡ 23 }
    ensures vault_pages { MOST_VAULT_PAGES ≡ 64 }
    ensures vault_bytes { MOST_VAULT_BYTES ≡ 262404 }
    ensures vault_slot { VAULT_SLOT ≡ 63 }
    ensures commands { MOST_COMMANDS ≡ 64 }
    ensures script_bytes { MOST_SCRIPT_BYTES ≡ 65536 }
    ensures debugged_steps { MOST_DEBUGGED_STEPS ≡ 100000 }
    ensures generated_pages { PAGES ≡ 300 }
    ensures generated_requests { REQUESTS_FOR_EACH ≡ 10 }
    ensures generated_frames { SETTINGS.frames ≡ 324 }
    ensures generated_budget { SETTINGS.budget ≡ 10000 }
    ensures generated_job { SETTINGS.job ≡ Serve 8 }
{}
