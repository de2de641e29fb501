// Boxes without a value.

ghost use Rattle.std.specs.Prelude.{◌≡◌, IfOk};

use std::alloc::{AllocError, Allocator, Global};
use std_alloc::room::Vacant;

/// The memory of a box for one value, which holds none.
pub struct EmptyBox<T, A: Allocator = Global> {
    vacant: Vacant<T, A>,
}

unsafe impl<T, A: Allocator + Send> Send for EmptyBox<T, A> {}

impl<T, A: Allocator> Drop for EmptyBox<T, A> {
    fn drop(self) {
        let EmptyBox { vacant } = self;
        drop(vacant.free());
    }
}

impl<T> EmptyBox<T> {
    /// A box with this value. It takes no memory.
    #[inline(always)]
    pub fn filled(self, value: T) -> Box<T>
        ensures { result.value ≡ value }
    {
        let EmptyBox { vacant } = self;
        written(vacant, value)
    }
}

/// A box with this value: this one, or a new one where there is none.
#[inline(always)]
pub fn boxed<T: Drop>(
    room: Option<EmptyBox<T>>,
    alloc: Global,
    value: T,
) -> Result<Box<T>, AllocError>
    ensures { IfOk result (λ b. b.value ≡ value) }
{
    match room {
        Some(room) => Ok(room.filled(value)),
        None => new_box(alloc, value),
    }
}

// It stands apart, since the room for a value that comes back would else be cleared where none does.
#[inline(never)]
fn new_box<T: Drop>(alloc: Global, value: T) -> Result<Box<T>, AllocError>
    ensures { IfOk result (λ b. b.value ≡ value) }
{
    Ok(Box::new(alloc, value)?)
}

/// The value of a box, and the box without it.
#[inline(always)]
pub fn emptied<T: Drop>(full: Box<T>) -> (T, EmptyBox<T>)
    ensures { result.0 ≡ full.value }
{
    let (value, vacant) = taken(full);
    (value, EmptyBox { vacant })
}

fn written<T, A: Allocator>(vacant: Vacant<T, A>, value: T) -> Box<T, A>
    ensures { result.value ≡ value }
{
    let Vacant { ptr, alloc } = vacant;
    unsafe {
        ptr.write(value);
    }
    unsafe { Box::from_raw(alloc, ptr) }
}

fn taken<T: Drop, A: Allocator>(full: Box<T, A>) -> (T, Vacant<T, A>)
    ensures { result.0 ≡ full.value }
{
    let (ptr, alloc) = Box::into_raw_with_allocator(full);
    let value = unsafe { ptr.read() };
    (value, Vacant { ptr, alloc })
}
