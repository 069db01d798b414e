//! Calls on specifications and configuration files.
use line_words::cny_dep::Flavor;
use line_words::{Answer, Line};
use repo_index::Catalogue;
use repo_index::cny_base::CONFIG_LIMIT;
use repo_index::trove_parts::TroveId;
use trove_spec::{Config, Labels, Place, Spec, resolve};

// Where a trove is looked for.
fn place(place: &Place, answer: &mut Answer) {
    match place {
        Place::Any => answer.field("any"),
        Place::OnLabel(label) => {
            answer.field("label");
            answer.field(label.text());
        }
        Place::At(version) => {
            answer.field("version");
            answer.field(version.text());
        }
    }
}

fn flavor(flavor: &Option<Flavor>, answer: &mut Answer) {
    match flavor {
        None => answer.field("none"),
        Some(flavor) => {
            answer.field("flavor");
            answer.field(flavor.text());
        }
    }
}

// The parts of a specification.
fn parts(spec: &Spec, answer: &mut Answer) {
    answer.text("ok");
    answer.field(spec.name.text());
    place(&spec.place, answer);
    flavor(&spec.flavor, answer);
}

/// `spec TEXT`: the parts of a copy of the specification.
pub fn spec(line: &mut Line, answer: &mut Answer) {
    line.reads_copy(answer, Spec::read, parts);
}

fn id(id: &TroveId, answer: &mut Answer) {
    answer.id(id);
}

/// The copy of a configuration of the labels and the flavor of two arguments.
pub fn config_of(line: &mut Line, labels: usize, flavor: usize) -> Option<Config> {
    let labels = Labels::new(line.list(labels));
    let flavor = line.value(flavor)?;
    let copy = Config { labels, flavor }.copy(line.alloc());
    line.kept(copy)
}

/// `resolve SPEC LABELS FLAVOR`, with a copy of the configuration of these labels and this flavor: the id.
pub fn resolved(catalogue: &Catalogue, line: &mut Line, answer: &mut Answer) {
    if let Some(spec) = line.read(0, Spec::read) {
        if let Some(config) = config_of(line, 1, 2) {
            let text = line.text(0);
            answer.outcome(resolve(line.alloc(), catalogue, &spec, text, &config), id);
        }
    }
}

// The labels with spaces between, and the flavor.
fn settings(config: &Config, answer: &mut Answer) {
    answer.text("ok\t");
    let mut between = "";
    for label in config.labels.get() {
        answer.text(between);
        answer.text(label.text());
        between = " ";
    }
    answer.field(config.flavor.text());
}

/// `config BYTES`: `Config::read` of a file of at most the greatest size.
pub fn config(line: &mut Line, answer: &mut Answer) {
    let bytes = line.bytes(0);
    if bytes.len() > CONFIG_LIMIT {
        return line.unreadable();
    }
    answer.outcome(Config::read(line.alloc(), bytes), settings);
}
