//! The stops of each disk, as failures of a call.
ghost use Rattle.std.specs.Prelude.{◌≡◌};
ghost use Rattle.cny_laws.specs.Stops as spec;
ghost use Rattle.cny_laws.specs.Stops.{root_result, repository_result};

use cny_laws::Failure;
use cny_laws::system_core::cny_base::Stop;

fn root_failure(stop: Stop) -> Failure
    ensures { result ≡ spec.root_failure stop }
{
    match stop {
        Stop::Refused(refusal) => Failure::Refused(refusal),
        Stop::Memory => Failure::Memory,
        Stop::Failed => Failure::RootFault,
        Stop::Damaged { path } => Failure::Damaged { path },
        Stop::FarFailed => Failure::RepositoryFault,
        Stop::FarDamaged { path } => Failure::Damaged { path },
    }
}

fn repository_failure(stop: Stop) -> Failure
    ensures { result ≡ spec.repository_failure stop }
{
    match stop {
        Stop::Refused(refusal) => Failure::Refused(refusal),
        Stop::Memory => Failure::Memory,
        Stop::Failed => Failure::RepositoryFault,
        Stop::Damaged { path } => Failure::Damaged { path },
        Stop::FarFailed => Failure::RepositoryFault,
        Stop::FarDamaged { path } => Failure::Damaged { path },
    }
}

/// The result of a step over the root's disk, with its stop as a failure.
pub fn on_root<X>(outcome: Result<X, Stop>) -> Result<X, Failure>
    ensures { result ≡ root_result outcome }
{
    match outcome {
        Ok(value) => Ok(value),
        Err(stop) => Err(root_failure(stop)),
    }
}

/// The result of a step over the repository's disk, with its stop as a failure.
pub fn on_repository<X>(outcome: Result<X, Stop>) -> Result<X, Failure>
    ensures { result ≡ repository_result outcome }
{
    match outcome {
        Ok(value) => Ok(value),
        Err(stop) => Err(repository_failure(stop)),
    }
}
