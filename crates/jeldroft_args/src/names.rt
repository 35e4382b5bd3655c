ghost use Rattle.std.specs.Prelude.{◌≡◌, ◌||◌, map, option_map};
ghost use Rattle.std.specs.List.{list_any};
ghost use Rattle.jeldroft_args.specs.believed.Names.{is_same_name, overwritten, plain_name};

// A name without `./` at its start.
fn plain_name(name: &str) -> &str
    ensures { result.now ≡ plain_name name.now }
{
    match name.strip_prefix("./") {
        Some(rest) => rest,
        None => name,
    }
}

fn is_same_name(one: &str, other: &str) -> bool
    ensures { result ≡ is_same_name one.now other.now }
{
    plain_name(one) == plain_name(other)
}

fn has_name(names: &[&str], name: &str) -> bool
    ensures { result ≡ list_any (is_same_name name.now) (map (λ n. n.now) names.now) }
{
    for other in names {
        if is_same_name(name, other) {
            return true;
        }
    }
    false
}

// Whether an output has the name of an input, or of a later output.
fn is_overwritten(inputs: &[&str], output: &str, later: &[&str]) -> bool
    ensures { result ≡ (list_any (is_same_name output.now) (map (λ n. n.now) inputs.now)
        || list_any (is_same_name output.now) (map (λ n. n.now) later.now)) }
{
    has_name(inputs, output) || has_name(later, output)
}

/// The first output that has the name of an input, or of a later output; `None` where no file that
/// is read would be overwritten and no output would be written twice. Names are compared as they
/// are written, without `./` at their start (this project's rule). Takes no memory.
pub fn overwritten<'n>(inputs: &[&str], outputs: &[&'n str]) -> Option<&'n str>
    ensures { option_map (λ name. name.now) result
        ≡ overwritten (map (λ n. n.now) inputs.now) (map (λ n. n.now) outputs.now) }
{
    for place in 0..outputs.len() {
        let output = outputs[place];
        if is_overwritten(inputs, output, &outputs[place + 1..]) {
            return Some(output);
        }
    }
    None
}
