// The lines of a certificate: the book text, and then for each edge its forest or its circuit.
ghost use Rattle.std.specs.Prelude.{suc, ◌<◌};
ghost use Rattle.rule.specs.Books.{kept_of};
ghost use Rattle.reports.specs.Reports.{ForestLine};
ghost use Rattle.reports.specs.Steps.{Puts, certificate};

use crate::source::Source;

// The forest of a kept edge, or the circuit of an implied one.
fn forest_line(source: Source<'_>, e: u16, buffer: &mut [u8; 2048]) -> usize
    requires { e < source.book.now.count }
    ensures { Puts (ForestLine source.entry.book.now (λ e. kept_of source.entry.book.now) (suc e)) buffer.old buffer.new result }
{
    let forest = source.forest_at(e);
    if forest == 0 {
        return circuits::implied_line(source.book, e + 1, source.tables, buffer);
    }
    text::put::number_line(buffer, b"forest=", usize::from(forest))
}

// Line i of the certificate, counted from 0: the book text, and then a line for each edge.
pub fn certificate_line(source: Source<'_>, i: u16, buffer: &mut [u8; 2048]) -> usize
    requires { i < certificate.number source.book.now }
    ensures { Puts (certificate.Says source.entry.book.now i) buffer.old buffer.new result }
{
    let past = 4 + source.book.count;
    if i < past {
        return lines::book_line(source.book, i, buffer);
    }
    forest_line(source, i - past, buffer)
}
