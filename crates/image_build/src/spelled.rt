//! The names of the tasks' notifications, as bytes: each is its length and its bytes.

ghost use Rattle.std.specs.Prelude.{◌≡◌, ◌≤◌, ◌++◌, All, length, map, string_bytes, IfOk, OnOk};
ghost use Rattle.app_toml.specs.Held.{app_of};
ghost use Rattle.image_format.specs.ImageData.{all_names, name_bytes, names_bytes};
ghost use Rattle.image_build.specs.Built.{tasks_from};

use app_toml::App;
use std::alloc::{AllocError, Global};

fn push_name(out: &mut Vec<u8>, name: &str) -> Result<(), AllocError>
    requires { length name.now ≤ 24 }
    ensures { OnOk result (out.new.items ≡ out.old.items ++ name_bytes name.now) }
{
    out.push(name.len() as u8)?;
    out.extend_from_slice(name.as_bytes())
}

fn push_names(out: &mut Vec<u8>, names: &[String]) -> Result<(), AllocError>
    requires { All (λ n. length (string_bytes n) ≤ 24) names.now }
    ensures { OnOk result (out.new.items ≡ out.old.items
        ++ names_bytes (map string_bytes names.now)) }
{
    for name in names {
        push_name(out, name.as_str())?;
    }
    Ok(())
}

/// The names of all tasks' notifications, in their order.
pub(crate) fn all_names(alloc: Global, app: &App) -> Result<Vec<u8>, AllocError>
    ensures { IfOk result (λ v. v.items ≡ all_names
        (tasks_from (app_of app.now) 0 (app_of app.now).tasks)) }
{
    app.facts();
    let tasks = app.tasks();
    let mut out = Vec::new(alloc);
    for task in tasks {
        push_names(&mut out, task.notifications.as_slice())?;
    }
    Ok(out)
}
