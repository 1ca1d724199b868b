//! What each step on a word tells.
use crate::view::View;
use atomic_table::{Join, Play, Split};

pub struct MakeStep;

impl Play<(), View> for MakeStep {
    ghost use Rattle.vch_made.specs.Plays.{make_plays};

    ghost then = { make_plays };
}

pub struct ReleaseStep;

impl Play<(), View> for ReleaseStep {
    ghost use Rattle.vch_made.specs.Plays.{release_plays};

    ghost then = { release_plays };
}

pub struct OfferStep;

impl Play<(), View> for OfferStep {
    ghost use Rattle.vch_made.specs.Plays.{offer_plays};

    ghost then = { offer_plays };
}

pub struct LookStep;

impl Play<(), View> for LookStep {
    ghost use Rattle.vch_made.specs.Plays.{look_plays};

    ghost then = { look_plays };
}

pub struct Cut;

impl Split<View> for Cut {
    ghost use Rattle.vch_made.specs.Plays.{kept_part, new_part};

    ghost left = { kept_part };

    ghost right = { new_part };
}

pub struct Glue;

impl Join<View> for Glue {
    ghost use Rattle.vch_made.specs.Plays.{both_views, spent_view};

    ghost both = { both_views };

    ghost spent = { spent_view };
}
