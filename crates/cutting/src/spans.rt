// Lists of transactions as maps.
ghost use Rattle.std.specs.Prelude.{◌≡◌, ◌&&◌, ◌||◌, ℕ, ◌<◌, leb, ltb, eqb};
ghost use Rattle.bits.specs.Maps.{map_width, has};

// The registers that transactions touch, and those at which they start.
#[derive(Clone, Copy)]
pub struct Spans {
    pub taken: u64,
    pub starts: u64,
}

// The maps with one transaction more, from a register to before another.
pub fn with_span(spans: Spans, start: usize, end: usize) -> Spans
    requires { (start < end) × (end < map_width) }
    ensures taken { (x : ℕ) → has result.taken x ≡ (has spans.taken x || (leb start x && ltb x end)) }
    ensures starts { (x : ℕ) → has result.starts x ≡ (has spans.starts x || eqb start x) }
{
    let size = end - start;
    let registers: u64 = (1 << size) - 1;
    let first: u64 = 1 << start;
    Spans {
        taken: spans.taken | (registers << start),
        starts: spans.starts | first,
    }
}
