// Whether anybody has a token.
ghost use Rattle.std.specs.Prelude.{◌≡◌, is_some};
ghost use Rattle.share_catalog.specs.Views.{token};
ghost use Rattle.share_book.specs.Views.{view_by};

use crate::book::Book;
use crate::look::Who;
use crate::spots::recipient_of;

impl Book {
    /// Whether there is a recipient that has the token of that SHA-256 digest, though it may have expired. It takes no memory.
    pub fn knows(&self, digest: &[u8; 32]) -> bool
        ensures { result ≡ is_some (view_by self.now.past.history (token digest.now)) }
    {
        match recipient_of(&self.catalog, &Who::Token(*digest)) {
            Some(recipient) => self.catalog.credential(recipient).is_some(),
            None => false,
        }
    }
}
