// An entry of a list by its index, where the index may lie past the end: there nothing is read, and nothing stored.
#![tactic(auto)]

ghost use Rattle.std.specs.Prelude.{◌≡◌, get_or, set};

// The entry at a place, or what stands for none past the end.
pub fn load<T: Copy>(list: &[T], at: usize, none: T) -> T
    ensures { result ≡ get_or list.now at none }
{
    if at < list.len() { list[at] } else { none }
}

// Another entry at a place; past the end nothing is stored.
pub fn store<T: Copy>(list: &mut [T], at: usize, entry: T)
    ensures { list.new ≡ set list.old at entry }
{
    if at < list.len() {
        list[at] = entry;
    }
}
