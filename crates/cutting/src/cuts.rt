// Where a run of registers that is longer than the limit is cut: by a table of what it weighs to end a transaction before each register.
ghost use Rattle.std.specs.Prelude.{◌≡◌, true, not, cond, List, ℕ, suc, ◌+◌, ◌-◌, ◌*◌, ◌≤◌, ◌<◌, min, get_or};
ghost use Rattle.bits.specs.Maps.{map_width, has};
ghost use Rattle.bus.specs.Transactions.{Transaction};
ghost use Rattle.least_cost.specs.Weight.{byte_weight, start_weight, penalty};
ghost use Rattle.least_cost.specs.Plan.{stop_of, Run};
ghost use Rattle.cutting.specs.Spans.{MapsSoFar};
ghost use Rattle.cutting.specs.Cuts.{most_weight, Highest, Candidates};
ghost use Rattle.cutting.specs.Task.{Plannable, run_task, plan_from};

use crate::spans::{Spans, with_span};

// What a bus byte weighs: more than all the transactions of a list.
const BYTE: u32 = 1024;

// What a transaction weighs without its data.
const START: u32 = 2 * BYTE + 1;

// What it weighs to end a transaction where it may not end.
const HEAVY: u32 = 1_000_000;

// The numbers of a table: one for each register that a map can have.
const TABLE: usize = 64;

// The highest register that a map can have.
const HIGHEST: usize = 63;

// What it weighs to end before a register where the rest weighs so much, and all the registers before it are data.
fn end_weight(held: u64, at: usize, rest: u32) -> u32
    requires { (at < map_width) × (rest ≤ most_weight) }
    ensures answer { result ≡ byte_weight * at + (penalty (not (has held at)) + rest) }
{
    let weight = BYTE * at as u32 + rest;
    if bits::maps::has(held, at as u64) {
        weight + HEAVY
    } else {
        weight
    }
}

// The highest candidate before which a transaction that starts at a register may end: of the ends that weigh least, the first.
fn best_end(candidates: u64, start: usize, limit: usize, end: usize) -> usize
    requires { (((start < end) × (end < map_width)) × ((0 < limit) × (limit ≤ map_width))) × (has candidates (suc start) ≡ true) }
    ensures answer { Highest candidates (min (start + limit) end) result }
{
    let last = usize::min(start + limit, end);
    last - u64::leading_zeros(candidates << (HIGHEST - last)) as usize
}

// The candidates with a register before them: those that weigh as much or more go.
fn with_candidate(candidates: u64, weights: &[u32; TABLE], at: usize) -> u64
    requires { at < map_width }
    ensures answer { (end : ℕ) → at ≤ end → Candidates (λ i. get_or weights.now i 0) candidates (suc at) end → Candidates (λ i. get_or weights.now i 0) result at end }
{
    // A `while`, not a `for`: the candidates that are left tell which one is the next.
    let mut kept = candidates;
    while kept != 0 {
        let low = bits::maps::lowest(kept) as usize;
        if weights[low] < weights[at] {
            return kept | (1 << at);
        }
        kept &= !(1 << low);
    }
    1 << at
}

// What the registers from one on weigh: where it is needed, a transaction starts at it, and ends where that weighs so much.
fn rest_weight(needed: u64, at: usize, ending: u32, rest: u32) -> u32
    requires { (at < map_width) × ((byte_weight * at ≤ ending) × (ending ≤ most_weight)) }
    ensures answer { result ≡ cond (has needed at) (start_weight + ending - byte_weight * at) rest }
{
    if bits::maps::has(needed, at as u64) {
        START + ending - BYTE * at as u32
    } else {
        rest
    }
}

// Where the transactions of a run that weigh least end, by the registers that they start at.
fn run_ends(needed: u64, held: u64, first: usize, end: usize, limit: usize) -> [u8; TABLE]
    requires { (first < end) × ((end < map_width) × ((0 < limit) × (limit ≤ map_width))) }
    ensures answer { (i : ℕ) → first ≤ i → i < end → has needed i ≡ true → get_or result i 0 ≡ stop_of (run_task needed held limit end) (end - suc i) (suc i) i }
{
    // Two arrays, not one of pairs: the ends are what is answered, the weights only what they are found by.
    let mut ends: [u8; TABLE] = [0; TABLE];
    let mut weights: [u32; TABLE] = [0; TABLE];
    let mut rest: u32 = 0;
    weights[end] = end_weight(held, end, rest);
    let mut candidates: u64 = 1 << end;
    for at in (first..end).rev() {
        let stop = best_end(candidates, at, limit, end);
        ends[at] = stop as u8;
        rest = rest_weight(needed, at, weights[stop], rest);
        weights[at] = end_weight(held, at, rest);
        candidates = with_candidate(candidates, &weights, at);
    }
    ends
}

// The maps with the transactions of a run that is longer than the limit.
pub fn cut_run(
    spans: Spans,
    needed: u64,
    held: u64,
    first: usize,
    end: usize,
    limit: usize,
) -> Spans
    requires { ((first < end) × ((end < map_width) × ((0 < limit) × (limit ≤ map_width)))) × (has needed first ≡ true) }
    ensures answer { (allowed : ℕ) (w : List ℕ) → Plannable needed allowed held limit w → Run (has needed) (has allowed) first end → (ts : List Transaction) → MapsSoFar ts (plan_from needed allowed held limit w first) spans.taken spans.starts → MapsSoFar ts (plan_from needed allowed held limit w end) result.taken result.starts }
{
    // A `while`, not a `for`: the table tells how far a transaction goes, and the map where the next one starts.
    let ends = run_ends(needed, held, first, end, limit);
    let mut cut = spans;
    let mut at = first;
    while at < end {
        let stop = ends[at] as usize;
        cut = with_span(cut, at, stop);
        at = stop + bits::maps::lowest(needed >> stop) as usize;
    }
    cut
}
