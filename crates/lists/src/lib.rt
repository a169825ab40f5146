// Copying a list.
#![tactic(auto)]

ghost use Rattle.std.specs.Prelude.{◌≡◌, ◌++◌, take, drop, length};

// Copies a list over another, as many elements as both have; elements past them are kept. Element by element: of std's copy_from_slice the compiler makes memmove, and the archive needs only memcpy and memset.
pub fn copy<T: Copy>(source: &[T], target: &mut [T])
    ensures { target.new ≡ take (length target.old) source.now ++ drop (length source.now) target.old }
{
    let n = source.len().min(target.len());
    for (i, &element) in source[..n].iter().enumerate() {
        target[i] = element;
    }
}
