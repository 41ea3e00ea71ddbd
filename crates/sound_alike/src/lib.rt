// Whether two schedulers, or two clocks, that stand in lent arrays are the same: every byte and every word. Two wheels are compared by the wheel itself.
#![tactic(auto)]

ghost use Rattle.std.specs.Prelude.{◌≡◌, ◌↔◌, true};
ghost use Rattle.place_tables.specs.Cells.{scheduler_in};
ghost use Rattle.place_clock.specs.Clock.{clock_in};

use place_clock::ClockWords;
use place_tables::Cells;

// Two schedulers are the same: all their bytes are.
pub fn same_cells(one: &Cells, other: &Cells) -> bool
    ensures { (result ≡ true) ↔ (scheduler_in one.now ≡ scheduler_in other.now) }
{
    one == other
}

// Two clocks are the same: all their words are.
pub fn same_clocks(one: &ClockWords, other: &ClockWords) -> bool
    ensures { (result ≡ true) ↔ (clock_in one.now ≡ clock_in other.now) }
{
    one == other
}
