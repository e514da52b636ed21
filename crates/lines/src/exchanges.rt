// The exchanges whose lines are walked.
ghost use Rattle.std.specs.Prelude.{◌≡◌, drop};
ghost use Rattle.lines.specs.Lines.{answer_on};

use answers::Answer;
use derivatives_reading::read as read_derivatives;
use stock_reading::reading::read as read_stock;

#[derive(Clone, Copy)]
pub enum Exchange {
    Stock,
    // the derivatives exchange, as it was in 2015
    Derivatives,
}

// What the exchange's own reading answers at a place of its line.
pub(crate) fn read(exchange: Exchange, line: &[u8], at: usize) -> Answer
    ensures { result ≡ answer_on exchange (drop at line.now) }
{
    match exchange {
        Exchange::Stock => read_stock(line, at),
        Exchange::Derivatives => read_derivatives(line, at),
    }
}
