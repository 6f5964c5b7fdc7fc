ghost use Rattle.std.specs.Prelude.{◌≡◌};
ghost use Rattle.inc_cli.specs.Statuses.{code_of, limit_line, line_of};

use rs_queries::Limit;

/// How a top call ends (docs/ARCHITECTURE.md, "Statuses").
#[derive(Clone, Copy, Debug, PartialEq, Eq)]
pub enum Status {
    /// 0: done.
    Done,
    /// 1: the text has errors.
    Errors,
    /// 2: the words aren't accepted.
    BadWords,
    /// 3: the directory failed before the session was published.
    DirectoryFault,
    /// 4: a sink failed.
    SinkFault,
    /// 5: the source failed.
    SourceFault,
    /// 6: there is no memory.
    OutOfMemory,
    /// 7: the session lost each of its names.
    Lost,
    /// 8: the text passes this limit, and none before it.
    OverLimit(Limit),
    /// 9: the directory disagrees with the session's own steps.
    Disturbed,
}

impl Status {
    /// The status of the process.
    pub fn code(self) -> u8
        ensures { result ≡ code_of self }
    {
        match self {
            Status::Done => 0,
            Status::Errors => 1,
            Status::BadWords => 2,
            Status::DirectoryFault => 3,
            Status::SinkFault => 4,
            Status::SourceFault => 5,
            Status::OutOfMemory => 6,
            Status::Lost => 7,
            Status::OverLimit(_) => 8,
            Status::Disturbed => 9,
        }
    }

    /// What is written to `out` where it is a refusal, and else nothing.
    pub fn line(self) -> &'static [u8]
        ensures { result.now ≡ line_of self }
    {
        match self {
            Status::Done => b"",
            Status::Errors => b"",
            Status::BadWords => b"incc: bad words\n",
            Status::DirectoryFault => b"incc: directory fault\n",
            Status::SinkFault => b"",
            Status::SourceFault => b"incc: source fault\n",
            Status::OutOfMemory => b"incc: out of memory\n",
            Status::Lost => b"incc: lost 8 names\n",
            Status::OverLimit(limit) => limit_line(limit),
            Status::Disturbed => b"incc: directory disturbed\n",
        }
    }
}

fn limit_line(limit: Limit) -> &'static [u8]
    ensures { result.now ≡ limit_line limit }
{
    match limit {
        Limit::Text => b"incc: limit text\n",
        Limit::Modules => b"incc: limit modules\n",
        Limit::Items => b"incc: limit items\n",
    }
}
