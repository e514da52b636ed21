// Calls for C and Rust: the board of last quotes, lent as its heads and cells. A row is nine bytes, a time and 23 amounts.
ghost use Rattle.std.specs.Prelude.{◌≡◌};
ghost use Rattle.stock_board_flat.specs.Calls.{taken_answer, taken_flat, cleared_answer, cleared_flat, asked_flat, row_at_flat, in_use_flat};
ghost use Rattle.stock_board_flat.specs.Steps.{flat};
ghost use Rattle.stock_quotes_numbers.specs.Numbers.{quote_from};
ghost use Rattle.c_board.specs.Outcomes.{answer_outcome, rows_outcome};
ghost use Rattle.c_board.specs.Lent.{lent_bytes, lent_time, lent_amounts};

// Makes every row free: 0 or 50.
#[unsafe(no_mangle)]
pub extern "C" fn trivsome_board_clear(heads: &mut [u64], cells: &mut [u32]) -> u64
    ensures value { result ≡ answer_outcome (cleared_answer (flat heads.old cells.old)) }
    ensures cells_after { flat heads.new cells.new ≡ cleared_flat (flat heads.old cells.old) }
{
    c_board::trivsome_board_clear(heads, cells)
}

// Takes a quote of such numbers: 0, 50, 14 or 52.
#[unsafe(no_mangle)]
pub extern "C" fn trivsome_board_take_numbers(
    heads: &mut [u64],
    cells: &mut [u32],
    seq: u32,
    bytes: &[u8; 9],
    time: u64,
    amounts: &[u32; 23],
) -> u64
    ensures value { result ≡ answer_outcome (taken_answer (flat heads.old cells.old) (quote_from seq bytes.now time amounts.now)) }
    ensures cells_after { flat heads.new cells.new ≡ taken_flat (flat heads.old cells.old) (quote_from seq bytes.now time amounts.now) }
{
    c_board::trivsome_board_take_numbers(heads, cells, seq, bytes, time, amounts)
}

// The row of a code: 0, 50 or 51.
#[unsafe(no_mangle)]
pub extern "C" fn trivsome_board_ask_numbers(
    heads: &[u64],
    cells: &[u32],
    code: &[u8; 6],
    bytes: &mut [u8; 9],
    time: &mut u64,
    amounts: &mut [u32; 23],
) -> u64
    ensures value { result ≡ answer_outcome (asked_flat (flat heads.now cells.now) code.now) }
    ensures bytes_after { bytes.new ≡ lent_bytes (asked_flat (flat heads.now cells.now) code.now) bytes.old }
    ensures time_after { time.new ≡ lent_time (asked_flat (flat heads.now cells.now) code.now) time.old }
    ensures amounts_after { amounts.new ≡ lent_amounts (asked_flat (flat heads.now cells.now) code.now) amounts.old }
{
    c_board::trivsome_board_ask_numbers(heads, cells, code, bytes, time, amounts)
}

// The row at a place, the first at 0: 0, 50 or 51.
#[unsafe(no_mangle)]
pub extern "C" fn trivsome_board_row_numbers(
    heads: &[u64],
    cells: &[u32],
    place: usize,
    bytes: &mut [u8; 9],
    time: &mut u64,
    amounts: &mut [u32; 23],
) -> u64
    ensures value { result ≡ answer_outcome (row_at_flat (flat heads.now cells.now) place) }
    ensures bytes_after { bytes.new ≡ lent_bytes (row_at_flat (flat heads.now cells.now) place) bytes.old }
    ensures time_after { time.new ≡ lent_time (row_at_flat (flat heads.now cells.now) place) time.old }
    ensures amounts_after { amounts.new ≡ lent_amounts (row_at_flat (flat heads.now cells.now) place) amounts.old }
{
    c_board::trivsome_board_row_numbers(heads, cells, place, bytes, time, amounts)
}

// How many rows are in use: 0 with their number, or 50.
#[unsafe(no_mangle)]
pub extern "C" fn trivsome_board_rows(heads: &[u64], cells: &[u32]) -> u64
    ensures { result ≡ rows_outcome (in_use_flat (flat heads.now cells.now)) }
{
    c_board::trivsome_board_rows(heads, cells)
}
