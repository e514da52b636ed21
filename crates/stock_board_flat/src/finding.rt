// The first row of a code, found by the heads alone.
ghost use Rattle.std.specs.Prelude.{◌≡◌, cond, ◌≤◌, length};
ghost use Rattle.stock_board_flat.specs.Steps.{of_code, near_code, count_of, near_count, first_of};

// What stands above a code in a head: 256 to the sixth.
const CODES: u64 = 281_474_976_710_656;

// What stands above its first four bytes.
const LOW: u64 = 4_294_967_296;

// How many heads are looked at without a way out.
const BLOCK: usize = 32;

// Whether a head has a code.
pub(crate) fn is_of(head: u64, code: u64) -> bool
    ensures { result ≡ of_code code head }
{
    head % CODES == code
}

// 1 for a head that has a code; else 0.
fn one_of(head: u64, code: u64) -> usize
    ensures { (result ≡ cond (of_code code head) 1 0) × (result ≤ 1) }
{
    if head % CODES == code { 1 } else { 0 }
}

// How many heads have a code. There is no way out at the first that has it: so the compiler takes several at a time.
pub(crate) fn count_of(heads: &[u64], code: u64) -> usize
    ensures { (result ≡ count_of code heads.now) × (result ≤ length heads.now) }
{
    let mut n = 0;
    for &head in heads {
        n += one_of(head, code);
    }
    n
}

// 1 for a head that begins with a code's first four bytes; else 0.
fn one_near(head: u64, low: u32) -> u32
    ensures { (result ≡ cond (near_code low head) 1 0) × (result ≤ 1) }
{
    if (head % LOW) as u32 == low { 1 } else { 0 }
}

// How many of a block's heads do, without a way out: so the compiler takes several at a time, and four bytes of each.
fn count_near(heads: &[u64], low: u32) -> u32
    requires { length heads.now ≤ 32 }
    ensures { result ≡ near_count low heads.now }
{
    let mut n = 0;
    for &head in heads {
        n += one_near(head, low);
    }
    n
}

// The place of the first head that has a code, one after the other; behind the last where none has.
fn scan(heads: &[u64], code: u64) -> usize
    ensures { result ≡ first_of code heads.now }
{
    for (at, &head) in heads.iter().enumerate() {
        if is_of(head, code) {
            return at;
        }
    }
    heads.len()
}

// The place of the first head of a block that has a code, if one of its heads is near.
fn in_block(heads: &[u64], code: u64) -> usize
    requires { length heads.now ≤ 32 }
    ensures { result ≡ first_of code heads.now }
{
    if count_near(heads, (code % LOW) as u32) == 0 {
        return heads.len();
    }
    scan(heads, code)
}

// The same among any heads, a block at a time.
pub(crate) fn find(heads: &[u64], code: u64) -> usize
    ensures { result ≡ first_of code heads.now }
{
    let mut at = 0;
    // block by block; what is left behind the whole ones is gone through head by head
    while BLOCK <= heads.len() - at {
        let end = at + BLOCK;
        let i = in_block(&heads[at..end], code);
        if i < BLOCK {
            return at + i;
        }
        at = end;
    }
    at + scan(&heads[at..], code)
}
