// The place of a number in a list that rises, by halving or on from a place behind it, and whether it stands there.
ghost use Rattle.std.specs.Prelude.{◌≡◌};
ghost use Rattle.rising.specs.Rising.{contains as contains_in, Rising, Below, Split};

// Kept: each asks for `Rising list`, and none takes a struct that holds the list: each is called by itself, of a list that the caller was lent, and a struct for one call is no plainer.

// How many numbers of a rising list are below one.
pub fn first_from(list: &[u32], number: u32) -> usize
    requires { Rising list.now }
    ensures { Split list.now number result }
{
    list.partition_point(|x| *x < number)
}

// The same, on from a place with smaller numbers alone behind it: for one who asks of rising numbers.
// Kept: a loop in steps of one: who asks of rising numbers finds each a few places on.
pub fn on_from(list: &[u32], at: usize, number: u32) -> usize
    requires rising { Rising list.now }
    requires below { Below list.now number at }
    ensures { Split list.now number result }
{
    for i in at..list.len() {
        if number <= list[i] {
            return i;
        }
    }
    list.len()
}

// Whether the number stands at its place.
pub fn stands_at(list: &[u32], place: usize, number: u32) -> bool
    requires rising { Rising list.now }
    requires split { Split list.now number place }
    ensures { result ≡ contains_in list.now number }
{
    place < list.len() && list[place] == number
}

// Whether a number stands in a rising list.
pub fn contains(list: &[u32], number: u32) -> bool
    requires { Rising list.now }
    ensures { result ≡ contains_in list.now number }
{
    list.binary_search(&number).is_ok()
}
