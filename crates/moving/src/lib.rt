// A new edge goes to its place: along the path that the search found, each edge takes the place of the next, and the last goes into the
// forest found. The book's forests and their tables (crate tables) change together.
#![tactic(auto)]

ghost use Rattle.std.specs.Prelude.{◌≡◌, ◌-◌, set};
ghost use Rattle.rule.specs.Sets.{In, at};
ghost use Rattle.moving.specs.Along.{CanExchange, Exchanges, Replants, Lands};

use rule::Book;
use tables::Tables;

// What stands in a list for edge e.
#[tactic(auto, using(crate::proofs::Walking::at_place))]
fn read(list: &[u8; 512], e: u16) -> u8
    requires { In 512 e }
    ensures { result ≡ at list.now e }
{
    list[usize::from(e) - 1]
}

// Edge e has forest f.
fn store(e: u16, f: u8, forests: &mut [u8; 512])
    requires { In 512 e }
    ensures { forests.new ≡ set forests.old (e - 1) f }
{
    forests[usize::from(e) - 1] = f;
}

// Edge x takes the place of edge y in y's forest.
fn exchange(x: u16, y: u16, book: &mut Book, tables: &mut Tables)
    requires { CanExchange x y book.old }
    ensures exchanges { Exchanges x y book.old tables.old book.new tables.new }
    ensures labels { tables.new.labels ≡ tables.old.labels }
    ensures size { tables.new.size ≡ tables.old.size }
    ensures book { book.new ≡ record book.old { forests = book.new.forests } }
{
    let f = read(&book.forests, y);
    let u = read(&book.ones, x);
    let v = read(&book.others, x);
    planting::swap(usize::from(f), usize::from(u), usize::from(v), x, y, tables);
    store(x, f, &mut book.forests);
}

// The edges of the path, its last edge first, with edge `number` in front: each takes the place of the next, and the last goes into
// the forest found.
pub fn replant(number: u16, found: u8, path: &[u16], book: &mut Book, tables: &mut Tables)
    requires { Replants number found path.now book.old tables.old }
    ensures replanted { Lands number found path.now book.old tables.old book.new tables.new }
    ensures book { book.new ≡ record book.old { forests = book.new.forests } }
{
    let mut x = number;
    for &y in path.iter().rev() {
        exchange(x, y, book, tables);
        x = y;
    }
    let u = read(&book.ones, x);
    let v = read(&book.others, x);
    planting::add(
        usize::from(found),
        usize::from(u),
        usize::from(v),
        x,
        tables,
    );
    store(x, found, &mut book.forests);
}
