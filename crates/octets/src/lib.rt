// Slices of octets and of numbers: every loop over them lives here. A caller lends the part that it means, `&mut s[a..e]`.
#![tactic(auto)]

ghost use Rattle.std.specs.Prelude.{◌≡◌, ◌+◌, ◌-◌, ◌≤◌, ◌<◌, [], ◌∷◌, length, take, drop, get_or, replicate};
ghost use Rattle.meaning.specs.Octets.{same, two_at, four_at};
ghost use Rattle.octets.specs.Part.{mid, shifted};

// The octet at a place, and 0 past the end, as the definitions read it.
pub fn at(s: &[u8], i: usize) -> u64
    ensures { (result ≡ get_or s.now i 0) × (result < 256) }
{
    if i < s.len() { s[i] as u64 } else { 0 }
}

// Big-endian numbers of two octets and of four. Where all are there they are read at once, which is one load when compiled.
pub fn two_at(s: &[u8], i: usize) -> u64
    requires { i + 1 < 18446744073709551616 }
    ensures { (result ≡ two_at s.now i) × (result < 65536) }
{
    let j = i + 1;
    if j < s.len() {
        return s[i] as u64 * 256 + s[j] as u64;
    }
    at(s, i) * 256
}

// Four octets as two and two.
fn two_and_two(s: &[u8], i: usize) -> u64
    requires { i + 3 < 18446744073709551616 }
    ensures { (result ≡ four_at s.now i) × (result < 4294967296) }
{
    two_at(s, i) * 65536 + two_at(s, i + 2)
}

pub fn four_at(s: &[u8], i: usize) -> u64
    requires { i + 3 < 18446744073709551616 }
    ensures { (result ≡ four_at s.now i) × (result < 4294967296) }
{
    let last = i + 3;
    if last < s.len() {
        let e = last + 1;
        return two_and_two(&s[i..e], 0);
    }
    two_and_two(s, i)
}

// Whether two slices hold the same octets, the one from place i on and the other from place j on: two, four, and eight, which is one
// comparison of 64 bits when compiled.
fn equal_two(a: &[u8], i: usize, b: &[u8], j: usize) -> bool
    requires { (i + 2 ≤ length a.now) × (j + 2 ≤ length b.now) }
    ensures { result ≡ same (take 2 (drop i a.now)) (take 2 (drop j b.now)) }
{
    (a[i] == b[j]) & (a[i + 1] == b[j + 1])
}

pub fn equal_four(a: &[u8], i: usize, b: &[u8], j: usize) -> bool
    requires { (i + 4 ≤ length a.now) × (j + 4 ≤ length b.now) }
    ensures { result ≡ same (take 4 (drop i a.now)) (take 4 (drop j b.now)) }
{
    equal_two(a, i, b, j) & equal_two(a, i + 2, b, j + 2)
}

fn equal_eight(a: &[u8], b: &[u8], i: usize) -> bool
    requires { (i + 8 ≤ length a.now) × (i + 8 ≤ length b.now) }
    ensures { result ≡ same (take 8 (drop i a.now)) (take 8 (drop i b.now)) }
{
    let k = i + 4;
    equal_four(a, i, b, i) & equal_four(a, k, b, k)
}

// Fewer than eight: the four of a root at once, others one by one.
fn equal_few(a: &[u8], b: &[u8]) -> bool
    requires { length a.now ≡ length b.now }
    ensures { result ≡ same a.now b.now }
{
    if a.len() == 4 {
        return equal_four(a, 0, b, 0);
    }
    for i in (0..a.len()).rev() {
        if a[i] != b[i] {
            return false;
        }
    }
    true
}

// Whether two slices hold the same octets. Names of one root differ behind, so the comparison begins there. What is left at the front is
// less than eight: the first eight are compared, some of them for the second time, which is quicker than one by one.
// Kept: by eights; with searches that stop it took a lookup by label from 10.1 to 5.6 times the plain card (docs/BENCHMARK.md).
pub fn equal(a: &[u8], b: &[u8]) -> bool
    ensures { result ≡ same a.now b.now }
{
    if a.len() != b.len() {
        return false;
    }
    if a.len() < 8 {
        return equal_few(a, b);
    }
    let mut n = a.len();
    while 8 <= n {
        n -= 8;
        if !equal_eight(a, b, n) {
            return false;
        }
    }
    equal_eight(a, b, 0)
}

// ---- zeros

// Whether the eight octets from place i on are zeros, which is one comparison when compiled.
fn zero_eight(s: &[u8], i: usize) -> bool
    requires { i + 8 ≤ length s.now }
    ensures { result ≡ same (take 8 (drop i s.now)) (replicate 8 0) }
{
    let zeros = [0u8; 8];
    let k = i + 4;
    equal_four(s, i, &zeros, 0) & equal_four(s, k, &zeros, 4)
}

fn zero_few(s: &[u8]) -> bool
    ensures { result ≡ same s.now (replicate (length s.now) 0) }
{
    s.iter().all(|x| *x == 0)
}

// Whether all are zeros, by eights as `equal`.
// Kept: by eights; it took a restore from 13.4 to 11.6 us (docs/BENCHMARK.md).
pub fn is_zero(s: &[u8]) -> bool
    ensures { result ≡ same s.now (replicate (length s.now) 0) }
{
    if s.len() < 8 {
        return zero_few(s);
    }
    let mut n = s.len();
    while 8 <= n {
        n -= 8;
        if !zero_eight(s, n) {
            return false;
        }
    }
    zero_eight(s, 0)
}

// ---- copies

// Element by element, which is one load and one store for a few octets of a fixed number when compiled.
fn lay<T: Copy>(dst: &mut [T], src: &[T])
    requires { length src.now ≡ length dst.old }
    ensures { dst.new ≡ src.now }
{
    for i in 0..src.len() {
        dst[i] = src[i];
    }
}

pub fn copy(dst: &mut [u8], src: &[u8])
    requires { length src.now ≡ length dst.old }
    ensures { dst.new ≡ src.now }
{
    lay(dst, src);
}

// N octets that are copied at once: all are read before one is written, which for eight and for four is one load and one store when compiled.
fn part_at<const N: usize>(s: &[u8], i: usize) -> [u8; N]
    requires { i + N ≤ length s.now }
    ensures { result ≡ take N (drop i s.now) }
{
    let end = i + N;
    let mut x = [0; N];
    lay(&mut x, &s[i..end]);
    x
}

fn put_part<const N: usize>(s: &mut [u8], i: usize, x: [u8; N])
    requires { i + N ≤ length s.old }
    ensures { s.new ≡ mid i N s.old x.entry }
{
    let end = i + N;
    lay(&mut s[i..end], &x);
}

// From a place of one slice to the same place of another.
fn lay_part<const N: usize>(dst: &mut [u8], src: &[u8], i: usize)
    requires { (i + N ≤ length dst.old) × (i + N ≤ length src.now) }
    ensures { dst.new ≡ mid i N dst.old (take N (drop i src.now)) }
{
    let x = part_at::<N>(src, i);
    put_part(dst, i, x);
}

// Fewer than eight: the first four and the last four, which may be some of the first, and fewer than four one by one.
fn copy_short(dst: &mut [u8], src: &[u8])
    requires { (length src.now ≡ length dst.old) × (length src.now < 8) }
    ensures { dst.new ≡ src.now }
{
    if src.len() < 4 {
        copy(dst, src);
        return;
    }
    let last = src.len() - 4;
    lay_part::<4>(dst, src, 0);
    lay_part::<4>(dst, src, last);
}

// Where the second of three eights begins that are to cover n octets and eight: behind the first, or with the last.
fn second_eight(n: usize) -> usize
    ensures { (result ≤ 8) × (result ≤ n) × (n ≤ 16 → n ≤ result + 8) }
{
    if n < 8 { n } else { 8 }
}

// Eight to twenty-four, as most names have: three eights, the last two over some that are there already, with no loop and no test.
fn copy_three(dst: &mut [u8], src: &[u8])
    requires { (length src.now ≡ length dst.old) × (8 ≤ length src.now) × (length src.now ≤ 24) }
    ensures { dst.new ≡ src.now }
{
    let last = src.len() - 8;
    let second = second_eight(last);
    lay_part::<8>(dst, src, 0);
    lay_part::<8>(dst, src, second);
    lay_part::<8>(dst, src, last);
}

// The same as `copy`, for a text whose length nobody foresees: by eights, of which the last goes over some that are there already, where
// `copy` takes what is left octet by octet. For a few octets of a fixed number `copy` is the quicker.
// Kept: by eights; a save went from 76,266 to 69,945 instructions (docs/BENCHMARK.md). `step_by(8)` asks twice in each turn.
// Not put into its callers: with it the writer of a record was too large to be put into its own, and a move took half the stack more.
#[inline(never)]
pub fn copy_text(dst: &mut [u8], src: &[u8])
    requires { length src.now ≡ length dst.old }
    ensures { dst.new ≡ src.now }
{
    if src.len() < 8 {
        copy_short(dst, src);
        return;
    }
    if src.len() <= 24 {
        copy_three(dst, src);
        return;
    }
    let last = src.len() - 8;
    let mut i = 0;
    while i < last {
        lay_part::<8>(dst, src, i);
        i += 8;
    }
    lay_part::<8>(dst, src, last);
}

// The same for a text that is most often of fewer than eight, as a root or an opaque value: those few are copied in the caller when compiled.
// Kept: copies of a few octets that call nothing took 1,000 instructions off a save (docs/BENCHMARK.md).
pub fn copy_field(dst: &mut [u8], src: &[u8])
    requires { length src.now ≡ length dst.old }
    ensures { dst.new ≡ src.now }
{
    if src.len() < 8 {
        copy_short(dst, src);
        return;
    }
    copy_text(dst, src);
}

pub fn copy_numbers(dst: &mut [u64], src: &[u64])
    requires { length src.now ≡ length dst.old }
    ensures { dst.new ≡ src.now }
{
    lay(dst, src);
}

fn copy_eight(s: &mut [u8], from: usize, to: usize)
    requires { (from + 8 ≤ length s.old) × (to + 8 ≤ length s.old) }
    ensures { s.new ≡ mid to 8 s.old (take 8 (drop from s.old)) }
{
    let x = part_at::<8>(s, from);
    put_part(s, to, x);
}

fn copy_few(s: &mut [u8], from: usize, to: usize, n: usize)
    requires { (from + n ≤ to) × (to + n ≤ length s.old) }
    ensures { s.new ≡ mid to n s.old (take n (drop from s.old)) }
{
    for i in 0..n {
        s[to + i] = s[from + i];
    }
}

// n octets from one place of a slice to a later one, which they do not reach: by eights as `copy_text`.
// Kept: by eights, as `equal`, in the same step; the set-up of a full card went from 2.9 to 1.3 times the plain card (docs/BENCHMARK.md).
pub fn copy_within(s: &mut [u8], from: usize, to: usize, n: usize)
    requires { (from + n ≤ to) × (to + n ≤ length s.old) }
    ensures { s.new ≡ mid to n s.old (take n (drop from s.old)) }
{
    if n < 8 {
        copy_few(s, from, to, n);
        return;
    }
    let last = n - 8;
    let mut i = 0;
    while i < last {
        copy_eight(s, from + i, to + i);
        i += 8;
    }
    copy_eight(s, from + last, to + last);
}

pub fn zero(dst: &mut [u64])
    ensures { dst.new ≡ replicate (length dst.old) 0 }
{
    dst.fill(0);
}

fn shift<T: Copy>(d: &mut [T], w: usize)
    requires { w ≤ length d.old }
    ensures { d.new ≡ shifted w d.old }
{
    for i in 0..d.len() - w {
        d[i] = d[i + w];
    }
}

pub fn shift_octets(d: &mut [u8], w: usize)
    requires { w ≤ length d.old }
    ensures { d.new ≡ shifted w d.old }
{
    shift(d, w);
}

pub fn shift_numbers(d: &mut [u64], w: usize)
    requires { w ≤ length d.old }
    ensures { d.new ≡ shifted w d.old }
{
    shift(d, w);
}
