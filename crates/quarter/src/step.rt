// A step of the story.
ghost use Rattle.std.specs.Prelude.{◌≡◌, Some, None};
ghost use Rattle.std.specs.Option.{option_map};

use cube::request::Request;

// A request, and what the reader is told before it; nothing where the request speaks for itself.
#[derive(Clone, Copy)]
pub struct Step {
    pub words: Option<&'static str>,
    pub request: Request,
}

impl Step {
    // A request that is told after these words.
    pub fn told(words: &'static str, request: Request) -> Step
        ensures request { result.request ≡ request }
        ensures words { option_map (λ said. said.now) result.words ≡ Some words.now }
    {
        Step {
            words: Some(words),
            request,
        }
    }
}

impl From<Request> for Step {
    ghost from_gives = { λ asked step. (step.request ≡ asked) × (step.words ≡ None) };

    fn from(request: Request) -> Step {
        Step {
            words: None,
            request,
        }
    }
}
