// The layout of a body, cell by cell, as the place of a bad digit is looked for (`layout::places::first_bad`).
ghost use Rattle.std.specs.Prelude.{◌≡◌};
ghost use Rattle.layout.specs.Places.{cells_of};
ghost use Rattle.stock_prices.specs.Prices.{twelve_cells};

// A byte handed on as it is, and packed fields by their digits.
const BYTE: u8 = 0;

const COUNT: u8 = 2;

const TIME: u8 = 12;

const PRICE: u8 = 9;

const QUANTITY: u8 = 8;

const CELLS: [u8; 121] = [
    COUNT, BYTE, BYTE, BYTE, BYTE, BYTE, BYTE, PRICE, PRICE, PRICE, PRICE, QUANTITY, TIME, BYTE,
    BYTE, BYTE, BYTE, BYTE, BYTE, PRICE, PRICE, PRICE, PRICE, QUANTITY, TIME, BYTE, BYTE, BYTE,
    BYTE, BYTE, BYTE, PRICE, PRICE, PRICE, PRICE, QUANTITY, TIME, BYTE, BYTE, BYTE, BYTE, BYTE,
    BYTE, PRICE, PRICE, PRICE, PRICE, QUANTITY, TIME, BYTE, BYTE, BYTE, BYTE, BYTE, BYTE, PRICE,
    PRICE, PRICE, PRICE, QUANTITY, TIME, BYTE, BYTE, BYTE, BYTE, BYTE, BYTE, PRICE, PRICE, PRICE,
    PRICE, QUANTITY, TIME, BYTE, BYTE, BYTE, BYTE, BYTE, BYTE, PRICE, PRICE, PRICE, PRICE,
    QUANTITY, TIME, BYTE, BYTE, BYTE, BYTE, BYTE, BYTE, PRICE, PRICE, PRICE, PRICE, QUANTITY, TIME,
    BYTE, BYTE, BYTE, BYTE, BYTE, BYTE, PRICE, PRICE, PRICE, PRICE, QUANTITY, TIME, BYTE, BYTE,
    BYTE, BYTE, BYTE, BYTE, PRICE, PRICE, PRICE, PRICE, QUANTITY, TIME,
];

pub(crate) fn cells() -> [u8; 121]
    ensures { cells_of result ≡ twelve_cells }
{
    CELLS
}
