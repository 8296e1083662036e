// The weight of an item.
ghost use Rattle.std.specs.Prelude.{◌≡◌, ◌≤◌, ◌<◌};
ghost use Rattle.family.specs.Weights.{item_weight};

// Kept: an item past the list weighs 0, as the definition (`item_weight`) has it.
// The weight of an item, which stands one before the item's number; 0 where there is none.
pub fn weight_at(weights: &[u32], item: u32) -> u64
    ensures light { result ≤ 4294967295 }
    ensures is { 0 < item → result ≡ item_weight weights.now item }
{
    if item == 0 {
        return 0;
    }
    u64::from(weights.get((item - 1) as usize).copied().unwrap_or(0))
}
