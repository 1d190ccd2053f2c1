// Zeros over a whole list of signed numbers.
ghost use Rattle.std.specs.Prelude.{◌≡◌};
ghost use lib.{IntN.{pos}, ListN.{length, replicate}};

pub fn zero_numbers(list: &mut [i32])
    ensures { list.new ≡ replicate (length list.old) (pos 0) }
{
    list.fill(0);
}
