// Laws of requests. The functions do nothing when they are called.
ghost use Rattle.share_request.specs.Callers.{HeadsTellCallers};
ghost use Rattle.share_request.specs.Laws.{LinksAreRead, OneSpelling, OtherFieldsPass, RequestsAreInForm, SpellingKeepsNames, UnknownFieldsPass, UnknownParametersPass};

/// A law: what is answered is in form. What is asked by token is asked by the route that is told, which is no link's; a page of a
/// list has at most 500 names, `maxFiles` is 1 to 2^31 - 1, a version is below 2^63; no page token is empty; a query hasn't both a
/// version and a moment; changes have a start or a page token; and of a file HEAD asks for no part.
pub fn requests_are_in_form()
    ensures { RequestsAreInForm }
{}

/// A law: who asks by a request, and by which route, is told by its head: it is the same whatever the body says.
pub fn heads_tell_callers()
    ensures { HeadsTellCallers }
{}

/// A law: a request with a parameter that isn't known is the request without it, and a body is read by the fields that are known
/// alone. Of a head's fields those of the token and of parts of files are read, and of `delta-sharing-capabilities` the parts that name
/// formats: requests that differ in others ask the same.
pub fn unknown_is_passed_over()
    ensures parameters { UnknownParametersPass }
    ensures fields { UnknownFieldsPass }
    ensures head { OtherFieldsPass }
{}

/// A law: a link's target is read, of GET and of HEAD, as the request by link with that target. Of other spellings, targets with the same names, path
/// and query are read as one, which has the names and the path that they have.
pub fn links_have_one_spelling()
    ensures links { LinksAreRead }
    ensures one { OneSpelling }
    ensures same { SpellingKeepsNames }
{}
