// The public mark for C: a static library with one function, which calls that of marks and says the same.
#![tactic(auto)]

ghost use Rattle.marks.specs.Marks.{mark_lent, IsMarking};

// marks::mark: the number is the result, and the count and the answer are written through.
#[unsafe(no_mangle)]
pub extern "C" fn blocks_mark(
    ss: &mut [u64],
    es: &mut [u64],
    len: usize,
    addr: u64,
    count: &mut usize,
    new: &mut bool,
) -> u32
    ensures { IsMarking (mark_lent len addr ss.old es.old) len ss.old es.old
        ss.new es.new (record { number = result; count = count.new; new = new.new }) }
{
    marks::blocks_mark(ss, es, len, addr, count, new)
}
