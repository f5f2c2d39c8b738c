//! The four scales, from the least to the greatest.

/// Expands a body once for each scale, in their order: the body is a macro that takes the scale, a
/// literal, and the name of what belongs to it.
macro_rules! at_scale {
    ($body:ident) => {
        $body!(6, six);
        $body!(9, nine);
        $body!(12, twelve);
        $body!(15, fifteen);
    };
}

pub(crate) use at_scale;
