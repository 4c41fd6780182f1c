// Writing picks: the first of some numbers, which a picker has put in its order.
ghost use Rattle.std.specs.Prelude.{◌++◌};
ghost use Rattle.picker.specs.Orders.{FirstWritten, WrittenFrom};

// Writes the first `q` numbers at the head of the list, or as many as there are, or as it has places for, and gives the last that it wrote.
// It stays in this crate, since a function over any iterator has a `requires`, and no public function has one.
pub(crate) fn write_first<'a, I: Iterator<Item = &'a u32> + Drop>(
    numbers: I,
    q: usize,
    list: &mut [u32],
) -> Option<u32>
    requires { I.can_next numbers }
    ensures { WrittenFrom I.next_gives numbers q list.old list.new result }
{
    // By index, since nothing is known of a slice after a loop over an adapter of its `iter_mut`.
    let mut last = None;
    for (place, number) in numbers.take(q.min(list.len())).enumerate() {
        list[place] = *number;
        last = Some(*number);
    }
    last
}

// The same for the numbers of two slices, one after the other.
// By two calls: a loop over a `chain` asks at each number which of the two it is in, and took twice to five times as long for 64 picks and more.
pub(crate) fn write_both(first: &[u32], second: &[u32], q: usize, list: &mut [u32]) -> Option<u32>
    ensures { FirstWritten (first.now ++ second.now) q list.old list.new result }
{
    let of_first = q.min(list.len()).min(first.len());
    let last = write_first(first.iter(), q, list);
    write_first(second.iter(), q - of_first, &mut list[of_first..]).or(last)
}
