// The sums of `run_tally` as functions of C, in a static library, for measuring: what C hands over as a pointer and a length is a slice.
#![tactic(auto)]

ghost use Rattle.std.specs.Prelude.{◌≡◌};
ghost use Rattle.run_tally.specs.Sums.{sum_of};

// From boot, the rows of a setup once, and then the rows of a loop so many times; the sum of the loop's answers.
#[unsafe(no_mangle)]
pub extern "C" fn run_rows(setup: &[u8], rows: &[u8], repeats: u64) -> u64
    ensures { result ≡ sum_of setup.now rows.now repeats }
{
    run_tally::run_rows(setup, rows, repeats)
}

// The same sum as `run_rows`, by value.
#[unsafe(no_mangle)]
pub extern "C" fn run_rows_by_value(setup: &[u8], rows: &[u8], repeats: u64) -> u64
    ensures { result ≡ sum_of setup.now rows.now repeats }
{
    run_tally::run_rows_by_value(setup, rows, repeats)
}

// The same sum as `run_rows`, by public calls.
#[unsafe(no_mangle)]
pub extern "C" fn run_rows_by_calls(setup: &[u8], rows: &[u8], repeats: u64) -> u64
    ensures { result ≡ sum_of setup.now rows.now repeats }
{
    run_tally::run_rows_by_calls(setup, rows, repeats)
}
