// What the passes keep for each position: its message, and the choices that the cells were made by.
ghost use Rattle.std.specs.Prelude.{◌≡◌, ◌≤◌, ◌<◌, ◌+◌, ◌-◌, ◌*◌, ◌^◌, ℕ, length, get_or};
ghost use Rattle.engine.specs.inner.Words.{slot_of, Taken};

// The most cells that a row has, with 31 links of at most 80 units both ways.
pub const ROW: usize = 31 * 80 + 1;

// The most cells that a message has.
pub const MESSAGE: usize = 80 + 1;

// The places of the choices of 32 positions: where those of position 32 would begin.
pub const CHOICES: usize = 31 * (40 * 31 + 1) - 40 * 31;

// Cells are numbers with 0 for none: an option of a number would take twice the room.
#[derive(Drop)]
pub struct Stores {
    // by position: the cell of each choice on its link
    pub messages: [[u32; MESSAGE]; 32],
    // position after position: the choice that each cell was made by
    pub choices: [u8; CHOICES],
}

impl Stores {
    pub fn new() -> Stores {
        Stores {
            messages: [[0; MESSAGE]; 32],
            choices: [0; CHOICES],
        }
    }
}

// Where the choices of position i begin.
#[tactic(auto, unfolding(crate::specs::inner::Words::slot_of))]
pub fn slot(i: usize) -> usize
    requires { (1 ≤ i) × (i ≤ 32) }
    ensures { result ≡ slot_of i }
{
    let u = i - 1;
    u * (40 * u + 1) - 40 * u
}

// The message of position i, of w + 1 cells, taken into a row, with the choice that each cell was made by. The message is
// lent whole, with w beside it: of a part lent in `member`, how long it was is not known past the call (tried).
pub fn take_in(
    row: &mut [u32],
    message: &[u32; MESSAGE],
    w: usize,
    choices: &mut [u8; CHOICES],
    i: usize,
)
    requires cells { (1 ≤ i) × (i < 32) × (w ≤ 80) × (w < length row.old) × (length row.old ≤ w + (80 * (i - 1) + 1)) }
    requires values { ((x : ℕ) → x < length row.old → get_or row.old x 0 < 2 ^ 31) × ((p : ℕ) → p ≤ w → get_or message.now p 0 < 2 ^ 31) }
    ensures { Taken message.now row.old choices.old row.new choices.new i w (length row.old) }
{
    rows::combine(row, &message[..=w], &mut choices[slot(i)..]);
}

// A row put in the store as a message.
pub fn put_message(row: &[u32], message: &mut [u32; MESSAGE])
    requires { length row.now ≤ MESSAGE }
    ensures { (x : ℕ) → x < length row.now → get_or message.new x 0 ≡ get_or row.now x 0 }
{
    message[..row.len()].copy_from_slice(row);
}
