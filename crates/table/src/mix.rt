// The mixing number.
ghost use Rattle.std.specs.Prelude.{◌≡◌};
ghost use Rattle.table.specs.Inner.{AnItem};
ghost use Rattle.table.specs.Start.{mix_of};

// The mixing number of an item.
pub fn mix(item: u32) -> u32
    requires { AnItem item }
    ensures { result ≡ mix_of item }
{
    item * 40503 % 65536
}
