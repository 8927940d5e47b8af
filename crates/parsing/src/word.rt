// The job's word.
ghost use Rattle.std.specs.Prelude.{◌≡◌};
ghost use Rattle.parsing.specs.Word.{job_named, numbers_on_a_line};

#[derive(Clone, Copy, PartialEq, Eq)]
pub enum Job {
    Plain,
    Ball,
    Admit,
}

impl Job {
    // How many numbers stand on a reading line.
    pub fn numbers(self) -> usize
        ensures { result ≡ numbers_on_a_line self }
    {
        match self {
            Job::Plain => 1,
            Job::Ball => 2,
            Job::Admit => 3,
        }
    }
}

#[tactic(auto, unfolding(crate::specs::Word::job_named))]
pub fn read(line: &[u8]) -> Option<Job>
    ensures { result ≡ job_named line.now }
{
    if line == b"plain".as_slice() {
        Some(Job::Plain)
    } else if line == b"ball".as_slice() {
        Some(Job::Ball)
    } else if line == b"admit".as_slice() {
        Some(Job::Admit)
    } else {
        None
    }
}
