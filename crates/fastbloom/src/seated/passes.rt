//! Passes: each is what one user of a filter knows of it.
ghost use Rattle.std.specs.Prelude.{◌≡◌, ◌<◌, ◌≤◌, All, IfOk, IsOkUnless, length, vec_len};
ghost use Rattle.fastbloom.specs.Plays.{SitsAt, IsFresh, less_one, one_of};
ghost use Rattle.fastbloom.specs.Passes.{IsNewPass, sight_of};

use super::rule::Sets;
use super::steps::{FilterSeat, SharedWords};
use atomic_table::Split;
use bloom_parts::error::FilterError;
use std::alloc::Global;
use std::marker::Model;

/// What one user of a filter knows of its words, in contracts alone: it has no bytes.
///
/// Contracts see the filter that it is of, the words that this began with, the positions that it
/// knows to be set, and those of them that it set itself.
#[derive(Drop)]
pub struct Pass {
    pub(crate) seat: FilterSeat,
}

impl Model for Pass {
    ghost use Rattle.fastbloom.specs.Passes.{Sight, sight_of};
    ghost use Rattle.fastbloom.specs.Seats.{IsPassSeat};

    ghost Value = { Sight };

    ghost view = { λ p. sight_of p.seat };

    ghost invariant = { λ p. IsPassSeat p.seat };
}

// How a seat is split into one that stands for one pass less, and that pass.
struct Parts;

impl Split<Sets> for Parts {
    ghost left = { less_one };

    ghost right = { one_of };
}

// Splits a pass off a seat that stands for more than one.
fn split_pass(shared: &SharedWords, seat: &mut FilterSeat) -> Pass
    requires at { SitsAt seat.old shared.now.table_id shared.now.key }
    requires some { 0 < shared.now.table_id.words }
    requires fresh { IsFresh seat.old.me.0 }
    requires more { 1 < seat.old.me.0.passes }
    requires whole { length seat.old.me.0.start ≡ shared.now.table_id.words }
    ensures table { seat.new.table_id ≡ seat.old.table_id }
    ensures left { seat.new.me.0 ≡ less_one seat.old.me.0 }
    ensures pass { IsNewPass seat.old.table_id seat.old.me.0.start result }
{
    Pass {
        seat: shared.split_seat::<Parts>(seat),
    }
}

/// The passes that the seat stands for, each of which knows nothing.
pub(crate) fn split_passes(
    alloc: Global,
    shared: &SharedWords,
    mut seat: FilterSeat,
    passes: usize,
) -> Result<Vec<Pass>, FilterError>
    requires at { SitsAt seat shared.now.table_id shared.now.key }
    requires some { 0 < shared.now.table_id.words }
    requires fresh { IsFresh seat.me.0 }
    requires passes { seat.me.0.passes ≡ passes }
    requires whole { length seat.me.0.start ≡ shared.now.table_id.words }
    requires least { 1 ≤ passes }
    ensures count { IfOk result (λ all. vec_len all ≡ passes) }
    ensures new { IfOk result (λ all. All (IsNewPass seat.table_id seat.me.0.start) all.items) }
    ensures refused { IsOkUnless result FilterError.Memory }
{
    let mut all = Vec::with_capacity(alloc, passes)?;
    'passes: for _ in 1..passes {
        all.push_reserved(split_pass(shared, &mut seat));
    }
    all.push_reserved(Pass { seat });
    Ok(all)
}
