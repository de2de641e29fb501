use serial_meaning::Origin;

/// An observer that is told when tasks begin and when they have answered. A gate may hold up the hand that calls it;
/// its calls must return. They come from all hands, and have no effect on any answer.
pub trait Gate {
    /// Called before a task of this origin is advanced for the first time. A task that is cut isn't advanced.
    fn enter(&self, origin: &Origin);

    /// Called after the answer of an advanced task of this origin was put.
    fn leave(&self, origin: &Origin);

    /// Whether `leave` is called. Where it isn't, no origin is copied for it.
    fn hears_ends(&self) -> bool {
        true
    }
}

/// The gate that does nothing.
pub struct OpenGate;

impl Gate for OpenGate {
    fn enter(&self, _origin: &Origin) {}

    fn leave(&self, _origin: &Origin) {}

    fn hears_ends(&self) -> bool {
        false
    }
}
