// Application fields.

/// An application field of a text.
#[derive(Clone, Copy)]
pub struct AppField<'a> {
    pub tag: u32,
    pub text: &'a [u8],
}
