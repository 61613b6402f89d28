//! The statuses of responses.

ghost use Rattle.std.specs.Prelude.{◌≡◌};
ghost use Rattle.cc_web.specs.Statuses.{code_of, title_of};

/// The status of a response.
#[derive(Clone, Copy)]
pub enum Status {
    Ok,
    NoContent,
    BadRequest,
    Forbidden,
    NotFound,
    NotAllowed,
    Conflict,
    Gone,
    TooLarge,
    Unsupported,
    Fault,
    Unavailable,
    Late,
}

impl Status {
    /// Its three digits.
    pub fn code(self) -> u16
        ensures { result ≡ code_of self }
    {
        match self {
            Status::Ok => 200,
            Status::NoContent => 204,
            Status::BadRequest => 400,
            Status::Forbidden => 403,
            Status::NotFound => 404,
            Status::NotAllowed => 405,
            Status::Conflict => 409,
            Status::Gone => 410,
            Status::TooLarge => 413,
            Status::Unsupported => 415,
            Status::Fault => 500,
            Status::Unavailable => 503,
            Status::Late => 504,
        }
    }

    /// What HTTP calls it.
    pub fn title(self) -> &'static str
        ensures { result.now ≡ title_of self }
    {
        match self {
            Status::Ok => "OK",
            Status::NoContent => "No Content",
            Status::BadRequest => "Bad Request",
            Status::Forbidden => "Forbidden",
            Status::NotFound => "Not Found",
            Status::NotAllowed => "Method Not Allowed",
            Status::Conflict => "Conflict",
            Status::Gone => "Gone",
            Status::TooLarge => "Content Too Large",
            Status::Unsupported => "Unsupported Media Type",
            Status::Fault => "Internal Server Error",
            Status::Unavailable => "Service Unavailable",
            Status::Late => "Gateway Timeout",
        }
    }
}
