//! The methods that are served.
ghost use Rattle.std.specs.Prelude.{◌≡◌, bytes_eq};
ghost use Rattle.xa_http.specs.Table.{name_of};

/// A method that is served at some path (RFC 9110, section 9.3).
#[derive(Clone, Copy, Debug, PartialEq, Eq)]
pub(crate) enum Method {
    /// Deletes the resource.
    Delete,
    /// Reads it.
    Get,
    /// Has it process the body.
    Post,
    /// Creates or replaces it.
    Put,
}

impl Method {
    /// The method's name.
    pub(crate) fn name(self) -> &'static str
        ensures { result.now ≡ name_of self }
    {
        match self {
            Method::Delete => "DELETE",
            Method::Get => "GET",
            Method::Post => "POST",
            Method::Put => "PUT",
        }
    }

    /// Whether that is its name. Names of methods are case-sensitive (RFC 9110, section 9.1).
    pub(crate) fn is_named(self, name: &[u8]) -> bool
        ensures { result ≡ bytes_eq name.now (name_of self) }
    {
        name == self.name().as_bytes()
    }
}
