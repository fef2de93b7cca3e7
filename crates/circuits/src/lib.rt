// The line of an edge that is not kept, from a sound book and the tables of its forests.
//
// Its circuit is that of an edge offered anew between the same bodies and of the same colour. A book that was not grown from empty may hold
// an edge in no forest that could be kept: then every kept edge is in its circuit, as the definition has it.
#![tactic(auto)]

ghost use Rattle.std.specs.Prelude.{◌≤◌, length};
ghost use Rattle.rule.specs.Sets.{◌<?◌, count as counted, at, numbers};
ghost use Rattle.rule.specs.Books.{design_of, kept_of};
ghost use Rattle.search.specs.Marks.{MarksWritten};
ghost use Rattle.reports.specs.Reports.{ImpliedLine};
ghost use Rattle.reports.specs.Steps.{line_room, Puts};
ghost use Rattle.circuits.specs.Listable.{ListableIn, HoldsCircuit};

use engine::Place;
use rule::Book;
use tables::Tables;

// The numbers of the edges that have a forest, smallest first, in the first places of the list, and how many they are. n is the answer too: a zip of
// the list with the edges that a filter leaves would have to be counted once more. (A count and the whole list: as `kept` of crate book.)
fn all_kept(count: u16, forests: &[u8; 512], list: &mut [u16]) -> usize
    requires { (count ≤ 512) × (counted (λ e. 0 <? at forests.now e) count ≤ length list.old) }
    ensures { MarksWritten list.old 0 (numbers (λ e. 0 <? at forests.now e) count) list.new result }
{
    let mut n: usize = 0;
    for e in 0..count {
        if forests[usize::from(e)] != 0 {
            list[n] = e + 1;
            n += 1;
        }
    }
    n
}

// The circuit of edge e in the first places of the list, and how many numbers it has.
fn circuit(book: &Book, e: u16, tables: &Tables, list: &mut [u16]) -> usize
    requires room { 378 ≤ length list.old }
    requires listable { ListableIn book.now e tables.now }
    ensures { HoldsCircuit book.now e list.new result }
{
    let i = usize::from(e) - 1;
    let twin = book.edge(i);
    match engine::place_for(book, twin, tables, list) {
        Place::Found(n, f) => all_kept(book.count, &book.forests, list),
        Place::Stuck(n) => usize::from(n),
    }
}

// The line of edge e, which is in no forest: `implied=` with its circuit among all kept edges.
pub fn implied_line(book: &Book, e: u16, tables: &Tables, buffer: &mut [u8]) -> usize
    requires listable { ListableIn book.now e tables.now }
    requires room { line_room ≤ length buffer.old }
    ensures { Puts (ImpliedLine (design_of book.now) (kept_of book.now) e) buffer.old buffer.new result }
{
    let mut list = [0u16; 378];
    let n = circuit(book, e, tables, &mut list);
    lines::list_line(buffer, b"implied=", &list[..n])
}
