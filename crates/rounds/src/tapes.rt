// The calls of one round, which differ in the tape.
use calls::{Call, Tally};
use pairs::Gadget;

// One call, on an array that holds 7 in every word; the words used are handed on. The verdict has no array.
fn once(call: Call, tape: &[u32], t: &mut Tally) -> usize {
    match call.gadget {
        Gadget::SamplePolynomial => t.call(call, tape, &mut [7; 2560]),
        Gadget::Verdict => t.call(call, tape, &mut []),
        _ => t.call(call, tape, &mut [7; 10]),
    }
}

// For each of the counts, one call on so many of the tape's first words.
fn on_first_words(call: Call, tape: &[u32], counts: &[usize], t: &mut Tally) {
    for words in counts {
        if let Some(cut) = tape.get(..*words) {
            once(call, cut, t);
        }
    }
}

// How many words the further tapes of widening and Decompose have: they end before the closing refresh; as many draws earlier, which in
// Decompose is before the refresh that precedes the opening; and before all.
fn before_refreshes(d: usize, used: usize) -> [usize; 3] {
    let closing = used.saturating_sub(d);
    [closing, closing.saturating_sub(d), 0]
}

// The same for the verdict: they end before the last refresh; before the zero test, which draws a scalar and a refresh for each share; before
// the product, which draws for each pair of shares; before the refresh of the left side; and before all.
fn before_steps(n: usize, used: usize) -> [usize; 5] {
    let refresh = n.saturating_sub(1);
    let square = n.saturating_mul(n);
    let zero_test = used.saturating_sub(square);
    let product = zero_test.saturating_sub(square.saturating_sub(n) / 2);
    let left = product.saturating_sub(refresh);
    [used.saturating_sub(refresh), zero_test, product, left, 0]
}

// The calls that not all gadgets have. A sampler first draws a word for each share, and a coefficient of a polynomial uses about a
// 256th of all.
fn on_further_tapes(call: Call, tape: &[u32], used: usize, t: &mut Tally) {
    let n = call.shares.len();
    let d = n.saturating_sub(1);
    match call.gadget {
        Gadget::Sample | Gadget::SamplePolynomial => {
            on_first_words(call, tape, &[n, d, used / 256, 0], t)
        }
        Gadget::Widen | Gadget::Decompose => {
            on_first_words(call, tape, &before_refreshes(d, used), t)
        }
        Gadget::Verdict => on_first_words(call, tape, &before_steps(n, used), t),
        _ => {}
    }
}

// The call with the whole tape; and if it used words, with just those, with one fewer, with as many fewer as there are shares,
// and with half of them. With one fewer the last refresh meets the end; with still fewer, the steps before it can.
pub fn on_tapes(call: Call, tape: &[u32], t: &mut Tally) {
    let used = once(call, tape, t);
    if used == 0 {
        return;
    }
    let fewer = used.saturating_sub(call.shares.len());
    on_first_words(call, tape, &[used, used - 1, fewer, used / 2], t);
    on_further_tapes(call, tape, used, t);
}
