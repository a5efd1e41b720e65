// Slices of any plain elements: links, marks, points, the work area.

ghost use Rattle.std.specs.Prelude.{◌≡◌, length, take, ◌≤◌};
ghost use Rattle.scope.specs.Lists.{lay, over};

// The first n of src, over those of dst. A loop: `copy_from_slice` is a call of memmove, which the library for C would ask of whoever links it.
pub fn copy<T: Copy>(src: &[T], dst: &mut [T], n: usize)
    requires n_in_bounds { n ≤ length src.now }
    requires n_in_bounds_2 { n ≤ length dst.old }
    ensures { dst.new ≡ over (take n src.now) dst.old }
{
    for i in 0..n {
        dst[i] = src[i];
    }
}

// The value z from n on. A loop: `fill` takes clones, and of a type that is only `Copy` nothing says that a clone is the value.
pub fn clear<T: Copy>(s: &mut [T], n: usize, z: T)
    requires { n ≤ length s.old }
    ensures { s.new ≡ lay z (take n s.old) s.old }
{
    for x in s[n..].iter_mut() {
        *x = z;
    }
}

// The first n of src, then z.
pub fn lay<T: Copy>(src: &[T], dst: &mut [T], n: usize, z: T)
    requires n_in_bounds { n ≤ length src.now }
    requires n_in_bounds_2 { n ≤ length dst.old }
    ensures { dst.new ≡ lay z (take n src.now) dst.old }
{
    copy(src, dst, n);
    clear(dst, n, z);
}
