// What is asked of a bucket.
ghost use Rattle.std.specs.Prelude.{◌≡◌};
ghost use Rattle.signed_call.specs.Methods.{method_name};
ghost use Rattle.signed_call.specs.Calls.{method_of, body_of};

/// The methods of requests (RFC 9110, section 9.3).
#[derive(Clone, Copy, Debug, PartialEq, Eq)]
pub enum Method {
    /// GET.
    Get,
    /// HEAD.
    Head,
    /// PUT.
    Put,
}

impl Method {
    /// The method's name.
    pub fn name(self) -> &'static str
        ensures { result.now ≡ method_name self }
    {
        match self {
            Method::Get => "GET",
            Method::Head => "HEAD",
            Method::Put => "PUT",
        }
    }
}

/// A request to a bucket. Names are those of objects in it, without a slash at their front.
#[derive(Clone, Copy)]
pub enum Call<'a> {
    /// The bytes of an object from place `from` to place `last`, both included ("GetObject").
    Get {
        /// The object's name.
        name: &'a str,
        /// The first place.
        from: u64,
        /// The last place.
        last: u64,
    },
    /// The size and the mark of an object ("HeadObject").
    Head {
        /// The object's name.
        name: &'a str,
    },
    /// Stores an object where none has the name ("PutObject", with `If-None-Match: *`).
    PutAbsent {
        /// The object's name.
        name: &'a str,
        /// What tells this put from each other one, kept with the object.
        mark: &'a str,
        /// The object's bytes.
        bytes: &'a [u8],
    },
    /// A page of the objects whose names begin so and have no further slash, at most 1,000 ("ListObjectsV2").
    List {
        /// How the names begin.
        prefix: &'a str,
        /// Where the listing goes on, as the page before it told.
        token: Option<&'a str>,
    },
}

impl<'a> Call<'a> {
    ghost use Rattle.signed_call.specs.declared.call.Call.{Call};

    /// The method of the request.
    pub fn method(&self) -> Method
        ensures { result ≡ method_of self.now }
    {
        match self {
            Call::Head { .. } => Method::Head,
            Call::PutAbsent { .. } => Method::Put,
            Call::Get { .. } | Call::List { .. } => Method::Get,
        }
    }

    /// The body of the request, empty for all but a put.
    pub fn body(&self) -> &'a [u8]
        ensures { result.now ≡ body_of self.now }
    {
        match self {
            Call::PutAbsent { bytes, .. } => bytes,
            _ => b"",
        }
    }
}
