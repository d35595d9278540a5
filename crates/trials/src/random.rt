// Pseudo-random words, and shares made of them.

// The next word: xorshift with 13, 17 and 5.
pub fn step(x: u32) -> u32 {
    let a = x ^ (x << 13);
    let b = a ^ (a >> 17);
    b ^ (b << 5)
}

// Fills the words, and answers the last of them, from which the generator goes on.
pub fn fill(words: &mut [u32], start: u32) -> u32 {
    let mut x = start;
    for word in words.iter_mut() {
        x = step(x);
        *word = x;
    }
    x
}

// Each word modulo m, if m is not 0.
pub fn reduce(words: &mut [u32], m: u32) {
    if m == 0 {
        return;
    }
    for word in words.iter_mut() {
        *word %= m;
    }
}

// The difference modulo m of numbers below m.
pub fn minus(x: u32, y: u32, m: u32) -> u32 {
    if y <= x {
        return x - y;
    }
    m.wrapping_sub(y - x)
}

// The last share becomes what the others leave of the value: `without` says what one share leaves.
pub fn complete<F: Fn(u32, u32) -> u32>(shares: &mut [u32], value: u32, without: F)
    requires { F.IsAlwaysCallable without }
{
    if let Some((last, others)) = shares.split_last_mut() {
        *last = others
            .iter()
            .fold(value, |left, share| without(left, *share));
    }
}

// Shares of a residue modulo q, from the words after x; the last of these words is answered.
pub fn share(residue: u32, shares: &mut [u32], x: u32) -> u32 {
    let last = fill(shares, x);
    reduce(shares, 8380417);
    complete(shares, residue, |left, share| minus(left, share, 8380417));
    last
}

fn plus(x: u32, y: u32) -> u32 {
    ((u64::from(x) + u64::from(y)) % 8380417) as u32
}

// The sum of the shares modulo q.
pub fn recombined(shares: &[u32]) -> u32 {
    shares.iter().fold(0, |sum, share| plus(sum, *share))
}
