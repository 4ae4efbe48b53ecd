// How a request is answered.
ghost use Rattle.std.specs.Prelude.{◌≡◌};
ghost use Rattle.ring_status.specs.Answers.{status_line};

/// How a request is answered: the status of HTTP.
#[derive(Clone, Copy, PartialEq, Eq)]
pub enum Status {
    /// 200: with what was asked.
    Found,
    /// 204: nothing came in the time that was asked for.
    NoContent,
    /// 400: it is no request, or what it names is no node or group.
    BadRequest,
    /// 404: there is nothing of that name.
    NotFound,
    /// 405: it asks by another method than GET and HEAD.
    NotAllowed,
    /// 431: its head is too long, or has too many fields.
    TooLarge,
    /// 503: a node does not take what it should.
    Unavailable,
}

impl Status {
    /// Its number and its reason.
    pub fn line(self) -> &'static str
        ensures { result.now ≡ status_line self }
    {
        match self {
            Status::Found => "200 OK",
            Status::NoContent => "204 No Content",
            Status::BadRequest => "400 Bad Request",
            Status::NotFound => "404 Not Found",
            Status::NotAllowed => "405 Method Not Allowed",
            Status::TooLarge => "431 Request Header Fields Too Large",
            Status::Unavailable => "503 Service Unavailable",
        }
    }
}
