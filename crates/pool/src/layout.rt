// Where the words of a pool lie. A cell is eight words: the first is the header, the next sixteen are the records, and the rest are nodes. Only
// this file reads or writes a word of the header or of a record.
ghost use Rattle.std.specs.Prelude.{◌≡◌, ◌+◌, ◌≤◌};
ghost use Rattle.run_index.specs.Cells.{Room};
ghost use Rattle.pool.specs.Layout.{
  capacity,
  node_count,
  header_at,
  record_at,
  padded_b,
  WroteHeader,
  MadeHeader,
  WroteRecord,
};

// The words of a cell.
pub const CELL: usize = 8;

// The cells before the first node: the header's and the records'.
const HEAD: usize = 17;

// The word from which on node n has the words CELL * n on. No node is 0: the last record lies there.
pub const NODES: usize = 128;

// The cells of a pool beyond its capacity: those before the first node, and two nodes for each world, since a call may have two runs more on its
// way than it leaves.
pub const BEYOND: usize = 49;

// The header: how many worlds were opened, and the head of the free list. Its other six words, the padding, are zeros.
#[derive(Clone, Copy)]
pub struct Header {
    pub opened: u64,
    pub free: u64,
}

// The record of a world: the root of its tree, the offset, held positions modulo 2^64, runs, the first and the last logical position held, 0 if
// there is none, the floor and the ceiling. That of a world that was not opened is zeros.
#[derive(Clone, Copy, Default, PartialEq)]
pub struct Record {
    pub root: u64,
    pub offset: u64,
    pub ones: u64,
    pub runs: u64,
    pub first: u64,
    pub last: u64,
    pub floor: u64,
    pub ceiling: u64,
}

// How many nodes there are.
pub fn node_count(words: &[u64]) -> u64
    requires { 1 ≤ capacity words.now }
    ensures { result ≡ node_count words.now }
{
    (words.len() / CELL - HEAD) as u64
}

#[tactic(auto, unfolding(crate::specs::Layout::header_at))]
pub fn read_header(words: &[u64]) -> Header
    requires { Room words.now 0 }
    ensures { result ≡ header_at words.now }
{
    Header {
        opened: words[0],
        free: words[1],
    }
}

// Whether the padding is zeros.
#[tactic(auto, using(std::proofs::lemmas::Bool::Decides::nat_tests), unfolding(crate::specs::Layout::padded_b))]
pub fn is_padded(words: &[u64]) -> bool
    requires { Room words.now 0 }
    ensures { result ≡ padded_b words.now }
{
    words[2] == 0
        && words[3] == 0
        && words[4] == 0
        && words[5] == 0
        && words[6] == 0
        && words[7] == 0
}

// Sets the header, and leaves the padding as it is.
pub fn write_header(words: &mut [u64], v: Header)
    requires { Room words.old 0 }
    ensures { WroteHeader words.old words.new v }
{
    words[0] = v.opened;
    words[1] = v.free;
}

// Sets the header and its padding.
pub fn make_header(words: &mut [u64], v: Header)
    requires { Room words.old 0 }
    ensures { MadeHeader words.old words.new v }
{
    words[0] = v.opened;
    words[1] = v.free;
    words[2] = 0;
    words[3] = 0;
    words[4] = 0;
    words[5] = 0;
    words[6] = 0;
    words[7] = 0;
}

// The record of world k. Word by word, as `write_record` has it: so no store is left of the words that a caller writes back as it has just read
// them (`write_world`).
#[tactic(auto, unfolding(crate::specs::Layout::record_at))]
pub fn read_record(words: &[u64], k: u64) -> Record
    requires { Room words.now (k + 1) }
    ensures { result ≡ record_at words.now k }
{
    let i = CELL * (k as usize + 1);
    Record {
        root: words[i],
        offset: words[i + 1],
        ones: words[i + 2],
        runs: words[i + 3],
        first: words[i + 4],
        last: words[i + 5],
        floor: words[i + 6],
        ceiling: words[i + 7],
    }
}

pub fn write_record(words: &mut [u64], k: u64, v: Record)
    requires { Room words.old (k + 1) }
    ensures { WroteRecord words.old words.new k v }
{
    let i = CELL * (k as usize + 1);
    words[i] = v.root;
    words[i + 1] = v.offset;
    words[i + 2] = v.ones;
    words[i + 3] = v.runs;
    words[i + 4] = v.first;
    words[i + 5] = v.last;
    words[i + 6] = v.floor;
    words[i + 7] = v.ceiling;
}
