// What is kept of the answers.
use super::{Call, Told};
use trials::{low, mix};

// How often each number came, and a checksum.
#[derive(Clone, Copy)]
pub struct Tally {
    pub counts: [u32; 6],
    pub sum: u32,
}

fn mix_all(sum: u32, words: &[u32]) -> u32 {
    words.iter().fold(sum, |sum, word| mix(sum, *word))
}

impl Tally {
    pub fn start() -> Tally {
        Tally {
            counts: [0; 6],
            sum: 0,
        }
    }

    // An answer, and everything in the array that its output slice is cut from.
    pub fn note(&mut self, told: Told, array: &[u32]) {
        let count = &mut self.counts[(told.number() % 6) as usize];
        *count = count.wrapping_add(1);
        let head = mix(self.sum, told.number());
        let said = match told {
            Told::Answer(_) => head,
            Told::Parts(parts) => mix(head, parts.high),
            Told::Verdict(judged) => mix(mix(head, judged.verdict), judged.opened),
        };
        self.sum = mix_all(mix(said, low(told.used())), array);
    }

    // Makes a call and keeps what it answers, and hands on the words that it used.
    pub fn call(&mut self, call: Call, tape: &[u32], array: &mut [u32]) -> usize {
        let told = call.told(tape, array);
        self.note(told, array);
        told.used()
    }
}
