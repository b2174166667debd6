// The addresses that a client asks.
ghost use Rattle.std.specs.Prelude.{◌≡◌, IfOk, IsTrue, bytes_eq, codes};
ghost use Rattle.share_config.specs.Urls.{http_url_in, is_http_url};

use std::alloc::{AllocError, Global};
use std::marker::Model;
use url::{ParseError, Url};

/// A text that is an absolute `http` URL with a host, as the URL Standard reads it. Contracts see its bytes as they
/// were given.
#[derive(Drop)]
pub struct HttpUrl {
    text: String,
}

impl Model for HttpUrl {
    ghost use Rattle.std.specs.Prelude.{List, ℕ, IsTrue, string_bytes};

    ghost Value = { List ℕ };

    ghost view = { λ u. string_bytes u.text };

    ghost use Rattle.share_config.specs.Urls.{is_http_url};

    ghost invariant = { λ u. IsTrue (is_http_url (string_bytes u.text)) };
}

fn is_http_url_text(alloc: Global, text: &str) -> Result<bool, AllocError>
    ensures { IfOk result (λ b. b ≡ is_http_url text.now) }
{
    match Url::parse(alloc, text) {
        Ok(url) => Ok(url.scheme() == "http" && url.has_host()),
        Err(ParseError::OutOfMemory | ParseError::Overflow) => Err(AllocError),
        Err(_) => Ok(false),
    }
}

impl HttpUrl {
    /// The URL of that text, or `None` exactly where the text isn't one. The error is want of memory, or of room for
    /// a URL of 4 GiB.
    pub fn of(alloc: Global, text: &str) -> Result<Option<HttpUrl>, AllocError>
        ensures { IfOk result (λ found. found ≡ http_url_in text.now) }
    {
        if is_http_url_text(alloc, text)? {
            Ok(Some(HttpUrl {
                text: String::from_str(alloc, text)?,
            }))
        } else {
            Ok(None)
        }
    }

    /// The text of the URL, as it was given.
    pub fn as_str(&self) -> &str
        ensures value { result.now ≡ self.now }
        ensures good { IsTrue (is_http_url self.now) }
    {
        &self.text
    }
}
