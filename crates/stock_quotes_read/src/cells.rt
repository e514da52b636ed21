// The layout of a body, cell by cell, as the place of a bad digit is looked for (`layout::places::first_bad`).
ghost use Rattle.std.specs.Prelude.{◌≡◌};
ghost use Rattle.layout.specs.Places.{cells_of};
ghost use Rattle.stock_quotes.specs.Quotes.{six_cells};
ghost use Rattle.stock_quotes_read.specs.Steps.{most_pairs};

// A byte handed on as it is, and packed fields by their digits.
const BYTE: u8 = 0;

const TIME: u8 = 12;

const PRICE: u8 = 9;

const QUANTITY: u8 = 8;

const CELLS: [u8; 33] = [
    BYTE, BYTE, BYTE, BYTE, BYTE, BYTE, TIME, BYTE, BYTE, BYTE, QUANTITY, PRICE, QUANTITY, PRICE,
    QUANTITY, PRICE, QUANTITY, PRICE, QUANTITY, PRICE, QUANTITY, PRICE, QUANTITY, PRICE, QUANTITY,
    PRICE, QUANTITY, PRICE, QUANTITY, PRICE, QUANTITY, PRICE, QUANTITY,
];

pub(crate) fn cells() -> [u8; 33]
    ensures { cells_of result ≡ six_cells most_pairs }
{
    CELLS
}
