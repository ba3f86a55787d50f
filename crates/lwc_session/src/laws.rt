//! Laws of sessions.

ghost use Rattle.std.specs.Prelude.{◌≡◌, ◌++◌, ◌∷◌, [], List, ℕ, None, is_some};
ghost use Rattle.kernel_core.specs.Start.{inputs_of};
ghost use Rattle.kernel_core.specs.declared.settings.Settings.{Settings};
ghost use Rattle.lwc_session.specs.Served.{served};
ghost use Rattle.lwc_session.specs.Sessions.{Session, after_requests, begun, with_served};

/// A session is a fold: each request in turn is served alone from the image so far, and what comes of it is all that
/// the session takes from it.
#[tactic(auto, using(crate::proofs::Folding::folds))]
pub fn a_session_is_a_fold()
    ensures { (settings : Settings) (s : Session) (requests : List (List ℕ)) (request : List ℕ) →
        after_requests settings s (requests ++ request ∷ [])
        ≡ with_served (after_requests settings s requests)
        (served (inputs_of (after_requests settings s requests).image (request ∷ []) settings)) }
{}

/// A request that is not kept never was: the image at the end is that of the session without it, and its own reply is
/// all that is more.
#[tactic(auto, using(crate::proofs::Folding::never_was, crate::proofs::Folding::one_reply_more, crate::proofs::Folding::replies_from))]
pub fn a_request_that_is_not_kept_never_was()
    ensures image { (settings : Settings) (s : Session) (request : List ℕ) (rest : List (List ℕ)) →
        (served (inputs_of s.image (request ∷ []) settings)).pages ≡ None →
        (after_requests settings s (request ∷ rest)).image ≡ (after_requests settings s rest).image }
    ensures replies { (settings : Settings) (s : Session) (request : List ℕ) (rest : List (List ℕ)) →
        (served (inputs_of s.image (request ∷ []) settings)).pages ≡ None →
        (after_requests settings s (request ∷ rest)).replies
        ≡ (s.replies ++ record {
          finished = (served (inputs_of s.image (request ∷ []) settings)).reply;
          kept = is_some (served (inputs_of s.image (request ∷ []) settings)).pages;
        } ∷ []) ++ (after_requests settings (begun s.image) rest).replies }
    ensures others { (settings : Settings) (s : Session) (rest : List (List ℕ)) →
        (after_requests settings s rest).replies
        ≡ s.replies ++ (after_requests settings (begun s.image) rest).replies }
{}

/// A session can be stopped and gone on with: the requests behind a place are served from what those before it leave.
#[tactic(auto, using(crate::proofs::Folding::goes_on))]
pub fn a_session_goes_on()
    ensures { (settings : Settings) (s : Session) (first rest : List (List ℕ)) →
        after_requests settings s (first ++ rest)
        ≡ after_requests settings (after_requests settings s first) rest }
{}
