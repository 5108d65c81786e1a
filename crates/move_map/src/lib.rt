// The map of touched points: a set of stack vertices in lent 32-bit words.
#![tactic(auto)]

ghost use Rattle.std.specs.Prelude.{◌≡◌, ◌*◌, ◌/◌, ◌≤◌, ◌<◌, length};
ghost use Rattle.mesh.specs.Limits.{stack_bound};
ghost use Rattle.move_map.specs.Map.{marked, NoneFrom, word_count, members, ones_in, including, emptied};

// How many words the map of `total` points needs.
pub fn words_for(total: usize) -> usize
    requires { total ≤ stack_bound }
    ensures { result ≡ word_count total }
{
    total.div_ceil(32)
}

// Is number i marked?
pub fn is_marked(map: &[u32], i: usize) -> bool
    requires { i / 32 < length map.now }
    ensures { result ≡ marked map.now i }
{
    (map[i / 32] >> (i % 32)) % 2 == 1
}

// How many numbers from i on are unmarked, as far as `most` and the end of i's word.
pub fn clear_ahead(map: &[u32], i: usize, most: usize) -> usize
    requires { i / 32 < length map.now }
    ensures upper_bound { result ≤ most }
    ensures none_from { NoneFrom (marked map.now) i result }
{
    if is_marked(map, i) {
        return 0;
    }
    let run = (map[i / 32] >> (i % 32)).trailing_zeros() as usize;
    let rest = 32 - i % 32;
    run.min(rest).min(most)
}

// Marks number i.
pub fn mark(map: &mut [u32], i: usize)
    requires { i / 32 < length map.old }
    ensures { marked map.new ≡ including (marked map.old) i }
{
    map[i / 32] |= 1 << (i % 32);
}

// Unmarks all numbers in the words that `total` points need.
pub fn clear(map: &mut [u32], total: usize)
    requires total_le_stack_bound { total ≤ stack_bound }
    requires total_in_bounds { word_count total ≤ length map.old }
    ensures { marked map.new ≡ emptied (word_count total * 32) (marked map.old) }
{
    map[..words_for(total)].fill(0);
}

// The number of ones in the words that `total` points need, which is how many numbers they mark.
pub fn count(map: &[u32], total: usize) -> usize
    requires total_le_stack_bound { total ≤ stack_bound }
    requires total_in_bounds { word_count total ≤ length map.now }
    ensures value { result ≡ ones_in map.now (word_count total) }
    ensures value_2 { result ≡ members (marked map.now) (word_count total * 32) }
{
    map[..words_for(total)]
        .iter()
        .map(|word| word.count_ones() as usize)
        .sum()
}
