// Random numbers, always the same ones.
ghost use Rattle.std.specs.Prelude.{◌≤◌};

// A number below n, the next of the generator; 0 where n is 0.
pub fn draw(seed: &mut u64, n: u32) -> u32
    ensures { result ≤ n }
{
    let next = (*seed % 2147483647) * 48271 % 2147483647;
    *seed = next;
    if n == 0 {
        return 0;
    }
    (next % 2147483647) as u32 % n
}

// True once in n draws or so.
pub fn once_in(seed: &mut u64, n: u32) -> bool {
    draw(seed, n) == 0
}
