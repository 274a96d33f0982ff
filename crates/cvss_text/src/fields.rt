//! What is done with the fields of a vector, once for all versions. The macro of a version, such as
//! `each_v2_metric`, calls each of these with the abbreviation, the field and the type of each metric.

/// The metric types, in an array.
#[macro_export]
macro_rules! kinds {
    (($kinds:ident) $($name:ident $field:ident $values:ty,)*) => {
        [$($kinds::$name),*]
    };
}

/// A call with the metric that is asked for, under its two names, and its field.
#[macro_export]
macro_rules! show_at {
    (($kind:ident: $kinds:ident, $show:ident::<$vectors:ident>($vector:ident))
     $($name:ident $field:ident $values:ty,)*) => {
        match $kind {
            $($kinds::$name => $show::<$vectors, _>($vector, $kind, $kinds::$name, $vector.$field),)*
        }
    };
}

/// A call with each field, one after another.
#[macro_export]
macro_rules! write_each {
    (($write:ident::<$vectors:ident>($vector:ident, $buffer:ident))
     $($name:ident $field:ident $values:ty,)*) => {{
        $($write::<$vectors, _>($vector.$field, $buffer);)*
    }};
}

/// Fills the field of the metric that is asked for. What the vector held before and after is for the law
/// alone.
#[macro_export]
macro_rules! fill_at {
    (($kind:ident: $kinds:ident, $filled:ident($vector:ident: $vectors:ident, $value:ident, $old:ident))
     $($name:ident $field:ident $values:ty,)*) => {
        match $kind {
            $($kinds::$name => $filled(
                $kind,
                $kinds::$name,
                $old,
                $value,
                cvss_text::values::fill::<$vectors, _>(&mut $vector.$field, $value),
                *$vector,
            ),)*
        }
    };
}

/// Puts the values of these fields one after another, as a text begins with them, and gives what follows
/// them.
#[macro_export]
macro_rules! put_each {
    ($vector:ident: $vectors:ident, $text:ident: $($field:ident)*) => {{
        $(let $text = cvss_text::values::put_value::<$vectors, _>(&mut $vector.$field, $text);)*
        $text
    }};
}
