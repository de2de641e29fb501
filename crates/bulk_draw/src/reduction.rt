ghost use Rattle.std.specs.Prelude.{◌≡◌, ◌≢◌, ◌%◌, map};

/// Reduces each number modulo `below`.
pub fn reduce(z: &mut [u64], below: u64)
    requires { below ≢ 0 }
    ensures { z.new ≡ map (λ n. n % below) z.old }
{
    for number in z.iter_mut() {
        *number %= below;
    }
}
