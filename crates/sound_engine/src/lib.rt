// Whether an engine is sound, and its page: the page is read where the engine's tables lie, the tables that follow from the page are built beside
// them, and the two are compared byte by byte and word by word. Whether started, the counts and the tick count are the page's own.
#![tactic(auto)]

ghost use Rattle.std.specs.Prelude.{◌≡◌, ◌↔◌, true};
ghost use Rattle.sound_engine.specs.Rebuilding.{Rebuilt, Judges};

use page::Page;
use page_building::{built_cells, built_clock, built_wheel};
use page_describing::describe;
use place_clock::ClockWords;
use place_step::{cells_of, clock_words, counts_of, wheel_words};
use place_tables::Cells;
use sound_alike::{same_cells, same_clocks};
use sound_page::sound;
use value_engine::Engine;
use wheel::{WheelWords, same_words};

// Whether the tables that follow from a page are those that stand in three arrays.
fn rebuilt(cells: &Cells, clock: &ClockWords, wheel: &WheelWords, page: Page) -> bool
    ensures { (result ≡ true) ↔ Rebuilt cells.now clock.now wheel.now page }
{
    let scheduler = built_cells(page);
    let scheduled = same_cells(cells, &scheduler);
    let timers = built_clock(page);
    let timed = same_clocks(clock, &timers);
    let spokes = built_wheel(page);
    let hung = same_words(wheel, &spokes);
    scheduled && timed && hung
}

// The page of an engine; as an error where it is not sound, or the engine keeps something that does not follow from it.
pub fn judge(engine: Engine) -> Result<Page, Page>
    ensures { Judges engine result }
{
    let cells = cells_of(engine);
    let clock = clock_words(engine);
    let wheel = wheel_words(engine);
    let counts = counts_of(engine);
    let page = describe(&cells, &clock, &wheel, counts);
    let right = sound(page);
    if !right {
        return Err(page);
    }
    let follows = rebuilt(&cells, &clock, &wheel, page);
    if follows { Ok(page) } else { Err(page) }
}
